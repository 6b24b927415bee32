// The steps of one path.
ghost use Rattle.std.specs.Prelude.{◌≡◌, Some};
ghost use Rattle.onepath.specs.Names.{name_of};

use std::fmt;

// A level has a guard, and that of level 0 always holds. A work or literal step takes effect where the guard of its
// line's level holds; the other steps with a level have a covered construct's own, whose guard they set. `to` is the
// place of a step, `line` the number of the loop's line, `counter` the number of an open loop's counter.
#[derive(Clone, Copy)]
pub enum Step {
    // The line's operation on two cells, by its number, since each kind of values has its own.
    Work {
        level: usize,
        target: u8,
        op: u8,
        a: u8,
        b: u8,
    },
    // The line's number into its target.
    Literal {
        level: usize,
        target: u8,
        number: u32,
    },
    // Begins a covered if: its guard holds where the guard one level out and the cell do.
    Ask {
        level: usize,
        cell: u8,
    },
    // Begins its second block: its guard holds where the guard one level out does and the cell did not.
    Turn {
        level: usize,
    },
    // Begins a covered loop: its guard is the guard one level out.
    Setout {
        level: usize,
    },
    // Begins a pass of it: its guard holds on only where the cell does.
    Narrow {
        level: usize,
        cell: u8,
    },
    // Ends a pass of it, and goes back to begin another while there were fewer than `bound`.
    Again {
        level: usize,
        bound: u8,
        to: usize,
    },
    // Ends it: where its guard and its cell still hold, the loop broke its bound.
    Close {
        level: usize,
        cell: u8,
        line: usize,
    },
    // Begins an open if: goes on where the cell holds, else to the second block.
    Branch {
        cell: u8,
        to: usize,
    },
    Jump {
        to: usize,
    },
    // Begins an open loop.
    Enter {
        counter: usize,
    },
    // Begins a pass of an open loop: goes on where the cell holds, else past the loop; at most `bound` passes.
    Test {
        counter: usize,
        cell: u8,
        bound: u8,
        to: usize,
        line: usize,
    },
}

impl Step {
    // The kind of the step in one word. It cannot fail, as printing can, so it stands beside `Display`.
    pub fn name(&self) -> &'static str
        ensures { result.now ≡ name_of self.now }
    {
        match *self {
            Step::Work { .. } => "work",
            Step::Literal { .. } => "literal",
            Step::Ask { .. } => "ask",
            Step::Turn { .. } => "turn",
            Step::Setout { .. } => "setout",
            Step::Narrow { .. } => "narrow",
            Step::Again { .. } => "again",
            Step::Close { .. } => "close",
            Step::Branch { .. } => "branch",
            Step::Jump { .. } => "jump",
            Step::Enter { .. } => "enter",
            Step::Test { .. } => "test",
        }
    }
}

impl fmt::Display for Step {
    ghost output = { λ s. Some (name_of s) };

    fn fmt<W: fmt::Write>(&self, f: &mut fmt::Formatter<W>) -> fmt::Result {
        f.write_str(self.name())
    }
}
