// The conversion of a whole sheet, from its bytes to its steps.
ghost use Rattle.std.specs.Prelude.{◌≡◌, length, IfOk};
ghost use Rattle.sheet.specs.Results.{found};
ghost use Rattle.onepath.specs.Converting.{Fits, Converts};
ghost use Rattle.onepath.specs.Refusals.{convert_fault};

use crate::blocks::convert_lines;
use crate::faults::ConvertFault;
use crate::paths::OnePath;
use crate::steps::Step;
use marking::least_marking;
use sheet::{Block, Line, Sheet};

// Checks a sheet's bytes, and that tables of so many lines, marks and steps can take what it needs.
pub fn check_tables(
    bytes: &[u8],
    lines: usize,
    marks: usize,
    steps: usize,
) -> Result<Sheet<'_>, ConvertFault>
    ensures first { found result ≡ convert_fault bytes.now lines marks steps }
    ensures fits { IfOk result (λ s. Fits bytes.now lines marks steps s) }
{
    let sheet = marking::check_tables(bytes, lines, marks)?;
    if steps < 2 * sheet.lines {
        return Err(ConvertFault::Table);
    }
    Ok(sheet)
}

// Reads a sheet, covers the cells that its marked cells reach, and writes its steps.
pub fn convert<'a>(
    bytes: &'a [u8],
    lines: &mut [Line],
    marks: &mut [bool],
    steps: &mut [Step],
) -> Result<OnePath<'a>, ConvertFault>
    ensures first { found result ≡ convert_fault bytes.now (length lines.old) (length marks.old) (length steps.old) }
    ensures converts { Converts bytes.now lines.old lines.new marks.old marks.new steps.old steps.new result }
{
    check_tables(bytes, lines.len(), marks.len(), steps.len())?;
    let marked = least_marking(bytes, lines, marks)?;
    let sheet = marked.sheet;
    let whole = Block {
        lines,
        from: 0,
        to: sheet.lines,
    };
    let count = convert_lines(whole, &marks[0..sheet.cells], steps);
    Ok(OnePath {
        sheet,
        steps: count,
    })
}
