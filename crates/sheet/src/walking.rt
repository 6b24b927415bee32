// Going through a block.
ghost use Rattle.std.specs.Prelude.{◌≡◌, ◌-◌};
ghost use Rattle.std.specs.Iterator.{at_most};
ghost use Rattle.sheet.specs.Blocks.{Gives};

use crate::block::{Block, Construct};
use crate::lines::Line;

// A block gives its constructs in order, and is then what is left of it.
impl<'a> Iterator for Block<'a> {
    type Item = Construct<'a>;

    ghost next_gives = { Gives };

    ghost remaining = { λ b. at_most (b.to - b.from) };

    fn next(&mut self) -> Option<Construct<'a>> {
        let Block { lines, from, to } = *self;
        if from == to {
            return None;
        }
        match lines[from] {
            Line::Work { target, op, a, b } => {
                self.from = from + 1;
                Some(Construct::Work { target, op, a, b })
            }
            Line::Literal { target, number } => {
                self.from = from + 1;
                Some(Construct::Literal { target, number })
            }
            Line::If { cell, partner } => {
                let Line::Else { partner: end } = lines[partner] else {
                    unreachable!()
                };
                let first = Block {
                    lines,
                    from: from + 1,
                    to: partner,
                };
                let second = Block {
                    lines,
                    from: partner + 1,
                    to: end,
                };
                self.from = end + 1;
                Some(Construct::If {
                    cell,
                    first,
                    second,
                })
            }
            Line::Loop {
                cell,
                bound,
                partner,
            } => {
                let body = Block {
                    lines,
                    from: from + 1,
                    to: partner,
                };
                self.from = partner + 1;
                Some(Construct::Loop {
                    line: from,
                    cell,
                    bound,
                    body,
                })
            }
            Line::Else { .. } | Line::End { .. } => unreachable!(),
        }
    }
}
