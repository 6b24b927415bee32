// Judging a sheet by its branching run.
ghost use Rattle.std.specs.Prelude.{◌≡◌, length};
ghost use Rattle.sheet.specs.Results.{found};
ghost use Rattle.run.specs.Judging.{Judges};
ghost use Rattle.run.specs.Refusals.{run_fault};

use crate::branching::run_block;
use crate::faults::RunFault;
use crate::verdicts::{Verdict, verdict_in};
use sheet::{Block, Line, check_table, read};
use value::Value;

// Reads a sheet and runs its branching form over the cells.
pub fn judge<V: Value>(
    bytes: &[u8],
    lines: &mut [Line],
    cells: &mut [V],
) -> Result<Verdict, RunFault>
    ensures first { found result ≡ run_fault bytes.now (length lines.old) (length cells.old) }
    ensures judges { Judges V.Value bytes.now lines.old lines.new cells.old cells.new result }
{
    let checked = check_table(bytes, lines.len())?;
    if cells.len() != checked.cells {
        return Err(RunFault::Cells);
    }
    let sheet = read(bytes, lines)?;
    let whole = Block {
        lines,
        from: 0,
        to: sheet.lines,
    };
    let broke = run_block(whole, cells).err();
    Ok(verdict_in(cells, sheet.verdict, broke))
}
