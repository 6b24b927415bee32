// The branching run over a block of lines.
ghost use Rattle.std.specs.Prelude.{◌≡◌, map};
ghost use Rattle.std.specs.Result.{result_err};
ghost use Rattle.sheet.specs.Blocks.{HasCode};
ghost use Rattle.sheet.specs.Code.{Code};
ghost use Rattle.run.specs.Branching.{branching as branched, passes as passed, out_of};
ghost use Rattle.run.specs.Values.{kind_of};

use crate::cells::{is_true, state, work};
use sheet::{Block, Construct};
use value::Value;

// Runs a block. Where the run breaks, the error is the line of the loop at which it did.
#[cycle(run_block_run_loop)]
pub(crate) fn run_block<V: Value>(block: Block<'_>, cells: &mut [V]) -> Result<(), usize>
    ensures { (c : Code) → HasCode block.entry c → out_of (result_err result) (map V.Value.meaning cells.new) ≡ branched (kind_of V.Value) c block.entry.from (map V.Value.meaning cells.old) }
{
    for construct in block {
        match construct {
            Construct::Work { target, op, a, b } => work(cells, target, op, a, b),
            Construct::Literal { target, number } => state(cells, target, number),
            Construct::If {
                cell,
                first,
                second,
            } => {
                if is_true(cells, cell) {
                    run_block(first, cells)?;
                } else {
                    run_block(second, cells)?;
                }
            }
            Construct::Loop {
                line,
                cell,
                bound,
                body,
            } => run_loop(line, cell, bound, body, cells)?,
        }
    }
    Ok(())
}

// Runs the loop of this line: tests its cell before each pass, and breaks where the cell is true after the last.
#[cycle(run_block_run_loop)]
fn run_loop<V: Value>(
    line: usize,
    cell: u8,
    bound: u8,
    body: Block<'_>,
    cells: &mut [V],
) -> Result<(), usize>
    ensures { (p : Code) → HasCode body.entry p → out_of (result_err result) (map V.Value.meaning cells.new) ≡ passed (kind_of V.Value) cell line (branched (kind_of V.Value) p body.entry.from) bound (map V.Value.meaning cells.old) }
{
    for _ in 0..bound {
        if !is_true(cells, cell) {
            return Ok(());
        }
        run_block(body, cells)?;
    }
    if is_true(cells, cell) {
        Err(line)
    } else {
        Ok(())
    }
}
