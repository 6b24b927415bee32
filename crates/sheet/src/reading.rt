// The reader: from a sheet's bytes to its numbers, marks and lines.
ghost use Rattle.std.specs.Prelude.{◌≡◌, ℕ, ◌+◌, ◌*◌, ◌<◌, ◌≤◌, length, IfOk, IfErr, Ok};
ghost use Rattle.sheet.specs.Checks.{header_of, sheet_fault, read_fault};
ghost use Rattle.sheet.specs.Layout.{Program};
ghost use Rattle.sheet.specs.Reading.{Laid, Taken, Fits, Filled, Reads};
ghost use Rattle.sheet.specs.Refusals.{place_of};
ghost use Rattle.sheet.specs.Results.{found};

use crate::checking::{check_limits, check_lines, check_marks, check_offsets, header};
use crate::faults::ReadFault;
use crate::filling::fill_block;
use crate::headers::{Header, Sheet};
use crate::lines::Line;
use crate::parts::line_bytes;

// Every check of a sheet, in order.
fn checked(bytes: &[u8]) -> Result<Header, ReadFault>
    ensures first { found result ≡ sheet_fault bytes.now }
    ensures whole { IfOk result (λ h. h ≡ header_of bytes.now) }
{
    if bytes.len() < 14 {
        return Err(ReadFault::Short);
    }
    let h = header(bytes);
    check_limits(h)?;
    check_offsets(bytes, h)?;
    check_marks(bytes, h)?;
    check_lines(bytes, h)?;
    Ok(h)
}

// Checks a sheet's bytes: the sheet's numbers and marks, or its first fault.
pub fn check(bytes: &[u8]) -> Result<Sheet<'_>, ReadFault>
    ensures first { found result ≡ sheet_fault bytes.now }
    ensures taken { Taken bytes.now result }
    ensures near { IfErr result (λ f. place_of f ≤ 4174) }
{
    let h = checked(bytes)?;
    Ok(Sheet {
        cells: h.cells,
        lines: h.lines,
        verdict: h.verdict,
        marks: &bytes[14..14 + h.marked],
    })
}

// Checks a sheet's bytes, and that a table of `room` lines can take its lines.
pub fn check_table(bytes: &[u8], room: usize) -> Result<Sheet<'_>, ReadFault>
    ensures first { found result ≡ read_fault bytes.now room }
    ensures fits { Fits bytes.now room result }
{
    let sheet = check(bytes)?;
    if room < sheet.lines {
        return Err(ReadFault::Table);
    }
    Ok(sheet)
}

// Fills the line table of a sheet that was checked.
fn fill(bytes: &[u8], sheet: Sheet<'_>, table: &mut [Line])
    requires { Fits bytes.now (length table.old) (Ok sheet) }
    ensures { (p : Program) → Laid bytes.now p → Filled p table.old table.new }
{
    fill_block(line_bytes(bytes, 14 + sheet.marks.len()), 0, table);
}

// Reads a sheet into the line table, which begins with its lines then, or answers the first fault.
pub fn read<'a>(bytes: &'a [u8], table: &mut [Line]) -> Result<Sheet<'a>, ReadFault>
    ensures first { found result ≡ read_fault bytes.now (length table.old) }
    ensures reads { Reads bytes.now table.old table.new result }
{
    let sheet = check_table(bytes, table.len())?;
    fill(bytes, sheet, table);
    Ok(sheet)
}
