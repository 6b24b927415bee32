// What is printed of a sheet.
#![tactic(auto)]

ghost use Rattle.std.specs.Prelude.{◌≡◌, IfOk, string_bytes};
ghost use Rattle.report.specs.Reports.{Reports};
ghost use Rattle.report.specs.Texts.{refusal_line, covered_cells, path_text};

mod input;
mod origins;
mod spaced;

use crate::spaced::Spaced;
pub use input::read_all;
use onepath::{Step, convert};
pub use origins::origin_report;
use sheet::{Fault, Line, Refused};
use std::alloc::{AllocError, Global};

// The line that is printed of what is refused.
pub fn refusal_line<F: Fault>(heap: Global, fault: F) -> Result<String, AllocError>
    ensures { IfOk result (λ s. string_bytes s ≡ refusal_line (F.numbered fault) (F.placed fault)) }
{
    let refused = Refused(fault);
    format!(in heap; "{refused}\n")
}

// The cells whose mark is yes.
fn covered_cells(heap: Global, marks: &[bool]) -> Result<Vec<usize>, AllocError>
    ensures { IfOk result (λ v. v.items ≡ covered_cells marks.now) }
{
    marks
        .iter()
        .enumerate()
        .filter(|(_, mark)| **mark)
        .map(|(cell, _)| cell)
        .collect(heap)
}

// The two lines that are printed of a sheet that was converted. One text of two parts; `Display` would want a struct for
// it.
fn path_report(heap: Global, marks: &[bool], steps: &[Step]) -> Result<String, AllocError>
    ensures { IfOk result (λ s. string_bytes s ≡ path_text marks.now steps.now) }
{
    let cells = covered_cells(heap, marks)?;
    let covered = Spaced(cells.as_slice());
    let names = Spaced(steps);
    format!(in heap; "covered{covered}\nsteps{names}\n")
}

// What the sheet printer writes of a sheet: its covered cells and its steps, or its refusal.
pub fn sheet_report(heap: Global, bytes: &[u8]) -> Result<String, AllocError>
    ensures { IfOk result (λ s. Reports bytes.now (string_bytes s)) }
{
    let mut lines = [Line::Else { partner: 0 }; 512];
    let mut marks = [false; 64];
    let mut steps = [Step::Jump { to: 0 }; 1024];
    match convert(bytes, &mut lines, &mut marks, &mut steps) {
        Ok(path) => path_report(heap, &marks[0..path.sheet.cells], &steps[0..path.steps]),
        Err(fault) => refusal_line(heap, fault),
    }
}

#[cfg(test)]
mod tests {
    use super::refusal_line;
    use onepath::ConvertFault;

    #[test]
    fn tells_a_refusal(rt: HostRuntime) {
        match refusal_line(rt.alloc(), ConvertFault::Table) {
            Ok(line) => assert!(rt; line.as_str() == "refused 7 at 3\n"),
            Err(_) => assert!(rt; false),
        }
    }
}
