// What is open at a line, and how lines open and close constructs.
use crate::kinds::LineKind;
use arrayvec::ArrayVec;

// An `if` before its `else`, an `if` after it, or a loop.
#[derive(Clone, Copy, Default)]
pub enum Open {
    #[default]
    First,
    Second,
    Body,
}

// The constructs that are open at a line, the innermost last.
#[derive(Drop)]
pub struct Nest {
    open: ArrayVec<Open, 6>,
}

impl Nest {
    ghost use Rattle.std.specs.Prelude.{◌≡◌, [], ◌==◌, length};
    ghost use Rattle.std.specs.Option.{option_map};
    ghost use Rattle.sheet.specs.Checks.{opened, turned, closed, nested};
    ghost use Rattle.sheet.specs.Nests.{opens};

    // Nothing is open.
    pub(crate) fn new() -> Nest
        ensures { opens result ≡ [] }
    {
        Nest {
            open: ArrayVec::new(),
        }
    }

    // Whether nothing is open.
    pub(crate) fn is_empty(&self) -> bool
        ensures { result ≡ (length (opens self.now) == 0) }
    {
        self.open.is_empty()
    }

    // Opens a construct, unless six are open.
    fn opened(mut self, o: Open) -> Option<Nest>
        ensures { option_map opens result ≡ opened o (opens self) }
    {
        self.open.try_push(o).ok()?;
        Some(self)
    }

    // Goes on from an `if`'s first block to its second, where such a block is innermost.
    fn turned(mut self) -> Option<Nest>
        ensures { option_map opens result ≡ turned (opens self) }
    {
        match self.open.as_slice().last().copied()? {
            Open::First => {
                self.open.pop();
                self.opened(Open::Second)
            }
            Open::Second | Open::Body => None,
        }
    }

    // Closes the innermost construct, where it is a loop or an `if` in its second block.
    fn closed(mut self) -> Option<Nest>
        ensures { option_map opens result ≡ closed (opens self) }
    {
        match self.open.pop()? {
            Open::First => None,
            Open::Second | Open::Body => Some(self),
        }
    }

    // Goes past a line of this kind, where it may stand there.
    pub(crate) fn past(self, kind: LineKind) -> Option<Nest>
        ensures { option_map opens result ≡ nested kind (opens self) }
    {
        match kind {
            LineKind::Work | LineKind::Literal => Some(self),
            LineKind::If => self.opened(Open::First),
            LineKind::Else => self.turned(),
            LineKind::End => self.closed(),
            LineKind::Loop => self.opened(Open::Body),
        }
    }
}
