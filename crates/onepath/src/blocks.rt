// The conversion of a block of lines into steps.
ghost use Rattle.std.specs.Prelude.{◌≡◌, ◌+◌, ◌-◌, ◌*◌, ◌≤◌, ◌++◌, length, drop};
ghost use Rattle.sheet.specs.Blocks.{HasCode, lines_in};
ghost use Rattle.sheet.specs.Code.{Code};
ghost use Rattle.onepath.specs.Cover.{covered_in};
ghost use Rattle.onepath.specs.Listed.{steps_of};
ghost use Rattle.onepath.specs.Holds.{Converted, ConvertedOne};

use crate::constructs::{Around, Form, is_cell_covered, is_loop_covered};
use crate::steps::Step;
use sheet::{Block, Construct};

// Converts a block into the steps from `at` on. Returns the place after them.
#[cycle(convert_block_convert_construct)]
fn convert_block(
    block: Block<'_>,
    covered: &[bool],
    around: Around,
    steps: &mut [Step],
    at: usize,
) -> usize
    requires room { at + 2 * (block.to - block.from) ≤ length steps.old }
    requires shallow { (around.level + (block.to - block.from) ≤ 512) × (around.loops + (block.to - block.from) ≤ 512) }
    ensures { Converted (covered_in covered.now) block.entry around.level around.loops steps.old steps.new at result }
{
    let mut place = at;
    for construct in block {
        place = convert_construct(construct, covered, around, steps, place);
    }
    place
}

// Converts a construct into the steps from `at` on. Returns the place after them. How far a block's steps go is known
// once it is converted, so the construct's own steps are written last.
#[cycle(convert_block_convert_construct)]
fn convert_construct(
    construct: Construct<'_>,
    covered: &[bool],
    around: Around,
    steps: &mut [Step],
    at: usize,
) -> usize
    requires room { at + 2 * lines_in construct ≤ length steps.old }
    requires shallow { (around.level + lines_in construct ≤ 512) × (around.loops + lines_in construct ≤ 512) }
    ensures { ConvertedOne (covered_in covered.now) construct.entry around.level around.loops steps.old steps.new at result }
{
    let level = around.level;
    match construct {
        Construct::Work { target, op, a, b } => {
            steps[at] = Step::Work {
                level,
                target,
                op,
                a,
                b,
            };
            at + 1
        }
        Construct::Literal { target, number } => {
            steps[at] = Step::Literal {
                level,
                target,
                number,
            };
            at + 1
        }
        Construct::If {
            cell,
            first,
            second,
        } => {
            let is_covered = is_cell_covered(covered, cell);
            let inner = around.in_if(is_covered);
            let mid = convert_block(first, covered, inner, steps, at + 1);
            let next = convert_block(second, covered, inner, steps, mid + 1);
            let form = Form::of(is_covered, inner.level, around.loops);
            form.put_if(cell, steps, at, mid, next);
            next
        }
        Construct::Loop {
            line,
            cell,
            bound,
            body,
        } => {
            let is_covered = is_loop_covered(covered, level, cell);
            let inner = around.in_loop(is_covered);
            let mid = convert_block(body, covered, inner, steps, at + 2);
            let form = Form::of(is_covered, inner.level, around.loops);
            form.put_loop(cell, bound, line, steps, at, mid)
        }
    }
}

// Converts the lines of a sheet. Returns how many steps there are, at most two a line.
pub(crate) fn convert_lines(whole: Block<'_>, covered: &[bool], steps: &mut [Step]) -> usize
    requires few { whole.to - whole.from ≤ 512 }
    requires room { 2 * (whole.to - whole.from) ≤ length steps.old }
    ensures listed { (c : Code) → HasCode whole.entry c → steps.new ≡ steps_of (covered_in covered.now) 0 0 whole.entry.from 0 c ++ drop result steps.old }
    ensures number { (c : Code) → HasCode whole.entry c → result ≡ length (steps_of (covered_in covered.now) 0 0 whole.entry.from 0 c) }
    ensures most { result ≤ 2 * (whole.entry.to - whole.entry.from) }
{
    let around = Around { level: 0, loops: 0 };
    convert_block(whole, covered, around, steps, 0)
}

#[cfg(test)]
mod tests {
    use super::*;
    use sheet::Line;
    use std::test::Fail;

    // Cell 1 is covered, so the loop on it is: setout, narrow, its block, again, close.
    #[test]
    fn covered_loop(rt: HostRuntime) -> Result<(), Fail> {
        let lines = [
            Line::Literal {
                target: 0,
                number: 1,
            },
            Line::Loop {
                cell: 1,
                bound: 3,
                partner: 4,
            },
            Line::Work {
                target: 1,
                op: 1,
                a: 1,
                b: 0,
            },
            Line::Work {
                target: 2,
                op: 0,
                a: 2,
                b: 0,
            },
            Line::End { partner: 1 },
        ];
        let whole = Block {
            lines: &lines,
            from: 0,
            to: 5,
        };
        let mut steps = [Step::Jump { to: 0 }; 10];
        let count = convert_lines(whole, &[false, true], &mut steps);
        assert_eq!(rt; count, 7);
        let again = steps[5];
        match again {
            Step::Again { level, bound, to } => assert!(rt; level == 1 && bound == 3 && to == 2),
            _ => return Err(Fail::new("no again")),
        }
        let close = steps[6];
        match close {
            Step::Close { level, cell, line } => {
                assert!(rt; level == 1 && cell == 1 && line == 1);
                Ok(())
            },
            _ => Err(Fail::new("no close")),
        }
    }

    // Nothing is covered, so the loop is open: enter, test, its block, jump.
    #[test]
    fn open_loop(rt: HostRuntime) -> Result<(), Fail> {
        let lines = [
            Line::Loop {
                cell: 0,
                bound: 2,
                partner: 2,
            },
            Line::Literal {
                target: 0,
                number: 0,
            },
            Line::End { partner: 0 },
        ];
        let whole = Block {
            lines: &lines,
            from: 0,
            to: 3,
        };
        let mut steps = [Step::Jump { to: 9 }; 6];
        let count = convert_lines(whole, &[], &mut steps);
        assert_eq!(rt; count, 4);
        let test = steps[1];
        match test {
            Step::Test {
                counter,
                to,
                line,
                ..
            } => assert!(rt; counter == 0 && to == 4 && line == 0),
            _ => return Err(Fail::new("no test")),
        }
        let jump = steps[3];
        match jump {
            Step::Jump { to } => {
                assert!(rt; to == 1);
                Ok(())
            },
            _ => Err(Fail::new("no jump")),
        }
    }
}
