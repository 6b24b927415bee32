// Sets of cells: the marked cells that a cell's value may come from.
ghost use Rattle.std.specs.Prelude.{◌≡◌, ℕ, ◌^◌, ◌<◌, true, false};
ghost use Rattle.marking.specs.Members.{Has, only};

mod as_mark;

// Cells below 64, a bit a cell.
#[derive(Clone, Copy, PartialEq, Eq)]
pub struct Origins {
    members: u64,
    ghost fits: { members < 2 ^ 64 },
}

impl Origins {
    pub fn contains(&self, cell: u8) -> bool
        ensures yes { result ≡ true → Has self.now.members cell }
        ensures no { result ≡ false → Has self.now.members cell → ⊥ }
    {
        self.members & bit_of(cell) != 0
    }
}

// The members of the set of one cell.
fn bit_of(cell: u8) -> u64
    ensures { result ≡ only cell }
{
    1u64.checked_shl(u32::from(cell)).unwrap_or(0)
}
