// Which constructs are covered, and the steps that each construct has of its own, before, between and after those of
// its blocks.
ghost use Rattle.std.specs.Prelude.{◌≡◌, ◌+◌, ◌^◌, ◌<◌, ◌≤◌, length};
ghost use Rattle.onepath.specs.Cover.{covered_in, loop_covered, level_in, loops_in};
ghost use Rattle.onepath.specs.Put.{form_of, put_if, put_loop, past_end};

use crate::steps::Step;

// What stands around a line: how many covered constructs, and how many open loops.
#[derive(Clone, Copy)]
pub(crate) struct Around {
    pub(crate) level: usize,
    pub(crate) loops: usize,
}

impl Around {
    // What stands around the lines of an if's blocks. Their level is a covered if's own.
    pub(crate) fn in_if(self, is_covered: bool) -> Around
        requires { self.level < 2 ^ 63 }
        ensures level { result.level ≡ level_in is_covered self.level }
        ensures loops { result.loops ≡ self.loops }
        ensures most { result.level ≤ self.level + 1 }
    {
        let level = if is_covered {
            self.level + 1
        } else {
            self.level
        };
        Around {
            level,
            loops: self.loops,
        }
    }

    // What stands around the lines of a loop's block. Their level is a covered loop's own.
    pub(crate) fn in_loop(self, is_covered: bool) -> Around
        requires { (self.level < 2 ^ 63) × (self.loops < 2 ^ 63) }
        ensures level { result.level ≡ level_in is_covered self.level }
        ensures loops { result.loops ≡ loops_in is_covered self.loops }
        ensures most { (result.level ≤ self.level + 1) × (result.loops ≤ self.loops + 1) }
    {
        let Around { level, .. } = self.in_if(is_covered);
        let loops = if is_covered {
            self.loops
        } else {
            self.loops + 1
        };
        Around { level, loops }
    }
}

// Whether the marks cover a cell. A cell past them is not covered.
pub(crate) fn is_cell_covered(covered: &[bool], cell: u8) -> bool
    ensures { result ≡ covered_in covered.now cell }
{
    covered.get(usize::from(cell)).copied().unwrap_or(false)
}

// Whether a loop is covered: by its cell, or by a covered construct around it.
pub(crate) fn is_loop_covered(covered: &[bool], level: usize, cell: u8) -> bool
    ensures { result ≡ loop_covered (covered_in covered.now) level cell }
{
    level > 0 || is_cell_covered(covered, cell)
}

// How a construct is converted: covered, at a level of its own, or open. An open loop has a counter.
#[derive(Clone, Copy)]
pub(crate) enum Form {
    Covered { level: usize },
    Open { counter: usize },
}

impl Form {
    // The form of a construct that is covered or not, with the level of its blocks and the counter that is free.
    pub(crate) fn of(is_covered: bool, level: usize, counter: usize) -> Form
        ensures { result ≡ form_of is_covered level counter }
    {
        if is_covered {
            Form::Covered { level }
        } else {
            Form::Open { counter }
        }
    }

    // Writes an if's own steps before and between the steps of its blocks, at `at` and at `mid`. `next` is the place
    // after the second block.
    pub(crate) fn put_if(self, cell: u8, steps: &mut [Step], at: usize, mid: usize, next: usize)
        requires { (at < mid) × (mid < length steps.old) }
        ensures { steps.new ≡ put_if self cell at mid next steps.old }
    {
        match self {
            Form::Covered { level } => {
                steps[at] = Step::Ask { level, cell };
                steps[mid] = Step::Turn { level };
            }
            Form::Open { .. } => {
                steps[at] = Step::Branch { cell, to: mid + 1 };
                steps[mid] = Step::Jump { to: next };
            }
        }
    }

    // Writes the own steps of the loop of this line before and after the steps of its block, from `at` and from `mid`
    // on. Returns the place after the loop.
    pub(crate) fn put_loop(
        self,
        cell: u8,
        bound: u8,
        line: usize,
        steps: &mut [Step],
        at: usize,
        mid: usize,
    ) -> usize
        requires { (at + 1 < mid) × (mid + 1 < length steps.old) }
        ensures steps { steps.new ≡ put_loop self cell bound line at mid steps.old }
        ensures next { result ≡ past_end self (mid + 1) }
    {
        match self {
            Form::Covered { level } => {
                steps[at] = Step::Setout { level };
                steps[at + 1] = Step::Narrow { level, cell };
                steps[mid] = Step::Again {
                    level,
                    bound,
                    to: at + 1,
                };
                steps[mid + 1] = Step::Close { level, cell, line };
                mid + 2
            }
            Form::Open { counter } => {
                steps[at] = Step::Enter { counter };
                steps[at + 1] = Step::Test {
                    counter,
                    cell,
                    bound,
                    to: mid + 1,
                    line,
                };
                steps[mid] = Step::Jump { to: at + 1 };
                mid + 1
            }
        }
    }
}
