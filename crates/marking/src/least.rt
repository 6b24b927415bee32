// The least marking of a sheet, for any kind of mark.
ghost use Rattle.std.specs.Prelude.{◌≡◌, length, IfOk};
ghost use Rattle.sheet.specs.Results.{found};
ghost use Rattle.marking.specs.Marking.{Fits, Marks};
ghost use Rattle.marking.specs.Refusals.{mark_fault};

use crate::faults::MarkFault;
use crate::kinds::Mark;
use crate::marked::Marked;
use crate::spread::mark_lines;
use sheet::{Block, Line, Sheet, check_table, read};

// Checks a sheet's bytes, and that tables of `lines` lines and `marks` marks can take what it needs.
pub fn check_tables(bytes: &[u8], lines: usize, marks: usize) -> Result<Sheet<'_>, MarkFault>
    ensures first { found result ≡ mark_fault bytes.now lines marks }
    ensures fits { IfOk result (λ s. Fits bytes.now lines marks s) }
{
    let sheet = check_table(bytes, lines)?;
    if marks < sheet.cells {
        return Err(MarkFault::Table);
    }
    Ok(sheet)
}

// Reads a sheet into the line table and gives each cell, in the mark table, its mark in the least marking.
pub fn least_marking<'a, M: Mark>(
    bytes: &'a [u8],
    lines: &mut [Line],
    marks: &mut [M],
) -> Result<Marked<'a>, MarkFault>
    ensures first { found result ≡ mark_fault bytes.now (length lines.old) (length marks.old) }
    ensures marks { Marks M.joined M.owned M.unmarked M.height bytes.now lines.old lines.new marks.old marks.new result }
{
    check_tables(bytes, lines.len(), marks.len())?;
    let sheet = read(bytes, lines)?;
    let whole = Block {
        lines,
        from: 0,
        to: sheet.lines,
    };
    let passes = mark_lines(whole, sheet.marks, sheet.cells, marks);
    Ok(Marked { sheet, passes })
}
