// What is printed of the cells' origin sets.
ghost use Rattle.std.specs.Prelude.{◌≡◌, IfOk, string_bytes};
ghost use Rattle.report.specs.Reports.{ReportsOrigins};
ghost use Rattle.report.specs.Texts.{member_cells, origin_line, origin_lines};

use crate::refusal_line;
use crate::spaced::Spaced;
use marking::{Mark, Origins, least_marking};
use sheet::Line;
use std::alloc::{AllocError, Global};

// The cells of a set.
fn member_cells(heap: Global, origins: &Origins) -> Result<Vec<u8>, AllocError>
    ensures { IfOk result (λ v. v.items ≡ member_cells origins.now.members) }
{
    (0..64).filter(|cell| origins.contains(*cell)).collect(heap)
}

// The cell and the members of its origin set. One text of two parts; `Display` would want a struct for it.
fn origin_line(heap: Global, cell: usize, origins: &Origins) -> Result<String, AllocError>
    ensures { IfOk result (λ s. string_bytes s ≡ origin_line cell origins.now) }
{
    let cells = member_cells(heap, origins)?;
    let members = Spaced(cells.as_slice());
    format!(in heap; "cell {cell}:{members}\n")
}

// A line for each cell.
fn origin_lines(heap: Global, sets: &[Origins]) -> Result<String, AllocError>
    ensures { IfOk result (λ s. string_bytes s ≡ origin_lines 0 sets.now) }
{
    let mut text = String::new(heap);
    for (cell, set) in sets.iter().enumerate() {
        let line = origin_line(heap, cell, set)?;
        text.push_str(line.as_str())?;
    }
    Ok(text)
}

// What the origin printer writes of a sheet: each cell's origin set, or the sheet's refusal.
pub fn origin_report(heap: Global, bytes: &[u8]) -> Result<String, AllocError>
    ensures { IfOk result (λ s. ReportsOrigins bytes.now (string_bytes s)) }
{
    let mut lines = [Line::Else { partner: 0 }; 512];
    let mut sets = [<Origins as Mark>::none(); 64];
    match least_marking(bytes, &mut lines, &mut sets) {
        Ok(marked) => origin_lines(heap, &sets[0..marked.sheet.cells]),
        Err(fault) => refusal_line(heap, fault),
    }
}
