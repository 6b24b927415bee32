// Spreads the marks of a sheet's cells over its lines, for any kind of marks.
ghost use Rattle.std.specs.Prelude.{◌≡◌, ℕ, ◌+◌, ◌*◌, ◌<◌, ◌≤◌, true, false, length, take, drop, slice_set};
ghost use Rattle.sheet.specs.Blocks.{HasCode};
ghost use Rattle.sheet.specs.Code.{Code};
ghost use Rattle.sheet.specs.Layout.{Rising};
ghost use Rattle.marking.specs.Rules.{AtLeast, Least};
ghost use Rattle.marking.specs.Spread.{marking, Passed, Reads, Started};

use crate::kinds::Mark;
use sheet::{Block, Construct};

fn mark_of<M: Mark>(marks: &[M], cell: u8) -> M
    requires { cell < length marks.now }
    ensures { result ≡ marking M.unmarked marks.now cell }
{
    marks[cell as usize]
}

// The mark that a work line gives to its target: those of the two cells that it reads, and of the conditions around it.
fn given_mark<M: Mark>(marks: &[M], a: u8, b: u8, around: M) -> M
    requires left { a < length marks.now }
    requires right { b < length marks.now }
    ensures { result ≡ M.joined (M.joined (marking M.unmarked marks.now a) (marking M.unmarked marks.now b)) around }
{
    mark_of(marks, a).join(mark_of(marks, b)).join(around)
}

// The joined mark of the conditions around the blocks of a construct: one more than around the construct itself.
fn around_blocks<M: Mark>(marks: &[M], cell: u8, around: M) -> M
    requires { cell < length marks.now }
    ensures { result ≡ M.joined around (marking M.unmarked marks.now cell) }
{
    around.join(mark_of(marks, cell))
}

// Joins `mark` to the mark of a cell, and says whether that raised it.
fn raise<M: Mark>(marks: &mut [M], cell: u8, mark: M) -> bool
    requires { cell < length marks.old }
    ensures after { marks.new ≡ slice_set marks.old cell (M.joined (marking M.unmarked marks.old cell) mark) }
    ensures rose { result ≡ true → AtLeast M.joined (marking M.unmarked marks.old cell) mark → ⊥ }
    ensures stayed { result ≡ false → AtLeast M.joined (marking M.unmarked marks.old cell) mark }
{
    let old = mark_of(marks, cell);
    if old.at_least(mark) {
        return false;
    }
    marks[cell as usize] = old.join(mark);
    true
}

// Goes once through a block that stands under conditions whose marks, joined, are `around`. What a line writes gets the
// marks of what it reads and of those conditions. Says whether any mark rose.
fn spread_block<M: Mark>(block: Block<'_>, around: M, marks: &mut [M]) -> bool
    requires { Reads block (length marks.old) }
    ensures { Passed M.joined M.unmarked M.rank block.entry around marks.old marks.new result }
{
    let mut rose = false;
    for construct in block {
        match construct {
            Construct::Work { target, a, b, .. } => {
                let mark = given_mark(marks, a, b, around);
                rose |= raise(marks, target, mark);
            }
            Construct::Literal { target, .. } => {
                rose |= raise(marks, target, around);
            }
            Construct::If {
                cell,
                first,
                second,
            } => {
                let inside = around_blocks(marks, cell, around);
                rose |= spread_block(first, inside, marks);
                rose |= spread_block(second, inside, marks);
            }
            Construct::Loop { cell, body, .. } => {
                let inside = around_blocks(marks, cell, around);
                rose |= spread_block(body, inside, marks);
            }
        }
    }
    rose
}

fn clear<M: Mark>(marks: &mut [M])
    ensures { (x : ℕ) → x < length marks.new → marking M.unmarked marks.new x ≡ M.unmarked }
{
    for mark in marks.iter_mut() {
        *mark = M::none();
    }
}

// Gives each marked cell its own mark, and every other cell none.
fn start<M: Mark>(marked: &[u8], marks: &mut [M])
    requires { Rising (length marks.old) 0 marked.now }
    ensures { Started M.joined M.unmarked M.owned marked.now marks.new }
{
    clear(marks);
    for cell in marked {
        let _ = raise(marks, *cell, M::own(*cell));
    }
}

// Goes once through all the lines. Says whether any mark rose.
fn pass<M: Mark>(whole: Block<'_>, marks: &mut [M]) -> bool
    requires { Reads whole (length marks.old) }
    ensures { Passed M.joined M.unmarked M.rank whole.entry M.unmarked marks.old marks.new result }
{
    spread_block(whole, M::none(), marks)
}

// Starts from the own marks and goes through the lines until no mark rises. Returns how often it went through them.
fn settle<M: Mark>(whole: Block<'_>, marked: &[u8], marks: &mut [M]) -> usize
    requires reads { Reads whole (length marks.old) }
    requires few { length marks.old ≤ 64 }
    requires rising { Rising (length marks.old) 0 marked.now }
    ensures least { (c : Code) → HasCode whole.entry c → Least M.joined M.owned (marking M.unmarked marks.new) marked.now c }
    ensures passes { result ≤ M.height * length marks.old + 1 }
{
    start(marked, marks);
    let mut passes = 1;
    while pass(whole, marks) {
        passes += 1;
    }
    passes
}

// The least marking of the first `cells` cells, into the first `cells` marks. Returns how often it went through the lines.
pub(crate) fn mark_lines<M: Mark>(
    whole: Block<'_>,
    marked: &[u8],
    cells: usize,
    marks: &mut [M],
) -> usize
    requires reads { Reads whole cells }
    requires room { cells ≤ length marks.old }
    requires few { cells ≤ 64 }
    requires rising { Rising cells 0 marked.now }
    ensures least { (c : Code) → HasCode whole.entry c → Least M.joined M.owned (marking M.unmarked (take cells marks.new)) marked.now c }
    ensures rest { drop cells marks.new ≡ drop cells marks.old }
    ensures long { length marks.new ≡ length marks.old }
    ensures passes { result ≤ M.height * cells + 1 }
{
    settle(whole, marked, &mut marks[..cells])
}

#[cfg(test)]
mod tests {
    use super::*;
    use crate::origins::Origins;
    use sheet::Line;
    use std::test::Fail;

    // The second cell is written under the first, which is marked, and the third reads the second before that.
    #[test]
    fn reaches_by_condition(rt: HostRuntime) -> Result<(), Fail> {
        let lines = [
            Line::Work {
                target: 2,
                op: 0,
                a: 1,
                b: 3,
            },
            Line::If {
                cell: 0,
                partner: 3,
            },
            Line::Literal {
                target: 1,
                number: 5,
            },
            Line::Else { partner: 4 },
            Line::End { partner: 1 },
        ];
        let mut marks = [true; 5];
        let whole = Block {
            lines: &lines,
            from: 0,
            to: 5,
        };
        let passes = mark_lines(whole, &[0], 4, &mut marks);
        assert!(rt; marks[0] && marks[1] && marks[2]);
        assert!(rt; !marks[3] && marks[4]);
        assert_eq!(rt; passes, 3);
        Ok(())
    }

    // The second cell is written in a loop on the first and reads the third, and both are marked.
    #[test]
    fn names_the_origins(rt: HostRuntime) -> Result<(), Fail> {
        let lines = [
            Line::Loop {
                cell: 0,
                bound: 9,
                partner: 2,
            },
            Line::Work {
                target: 1,
                op: 0,
                a: 2,
                b: 2,
            },
            Line::End { partner: 0 },
        ];
        let mut marks = [Origins::none(); 3];
        let whole = Block {
            lines: &lines,
            from: 0,
            to: 3,
        };
        let passes = mark_lines(whole, &[0, 2], 3, &mut marks);
        assert!(rt; marks[1].contains(0) && marks[1].contains(2));
        assert!(rt; !marks[1].contains(1) && !marks[0].contains(2));
        assert_eq!(rt; passes, 2);
        Ok(())
    }
}
