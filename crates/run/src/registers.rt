// What a run of the one path keeps for each level, and for each open loop that is under way. Levels go from 0 to 6,
// and level 0 has a guard that is always yes.
#[derive(Clone, Copy)]
pub struct Registers {
    pub levels: [Level; 7],
    pub loops: [u8; 6],
}

// What is kept for a level: the flag and the guard of the covered construct there, and how many passes it has counted.
#[derive(Clone, Copy, Default)]
pub struct Level {
    pub flag: bool,
    pub guard: bool,
    pub passes: u8,
}
