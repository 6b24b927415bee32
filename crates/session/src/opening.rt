// Opening a round.
ghost use Rattle.std.specs.Prelude.{◌≡◌, ◌≤◌, length, take};
ghost use Rattle.round.specs.Rounds.{Begun};
ghost use Rattle.sheet.specs.Results.{found};
ghost use Rattle.session.specs.Opening.{Opens, holds, SameTables, lent_by};
ghost use Rattle.session.specs.Refusals.{open_fault};

use crate::faults::OpenFault;
use onepath::{OnePath, Step, check_tables, convert};
use round::Round;
use sheet::Line;
use value::Value;

// The tables that are lent to an opening.
#[derive(Drop)]
pub struct Tables<'a> {
    pub lines: &'a mut [Line],
    pub marks: &'a mut [bool],
    pub steps: &'a mut [Step],
}

// How much is lent to an opening.
#[derive(Clone, Copy)]
pub struct Lent {
    pub lines: usize,
    pub marks: usize,
    pub steps: usize,
    pub setter: usize,
    pub working: usize,
}

impl Lent {
    // By the tables, with so many setter's and working cells.
    pub fn of(tables: &Tables, setter: usize, working: usize) -> Lent
        ensures { result ≡ lent_by (holds tables.now) setter working }
    {
        Lent {
            lines: tables.lines.len(),
            marks: tables.marks.len(),
            steps: tables.steps.len(),
            setter,
            working,
        }
    }
}

// Checks all that an opening checks, and moves nothing.
pub fn check_opening(bytes: &[u8], lent: Lent, tries: u32) -> Result<(), OpenFault>
    ensures first { found result ≡ open_fault bytes.now lent tries }
{
    let sheet = check_tables(bytes, lent.lines, lent.marks, lent.steps)?;
    if lent.setter != sheet.cells {
        return Err(OpenFault::SetterCells);
    }
    if lent.working != sheet.cells {
        return Err(OpenFault::WorkingCells);
    }
    if tries < 1 || tries > 100 {
        return Err(OpenFault::Tries);
    }
    Ok(())
}

// A new round of the sheet that the tables were filled from.
fn new_round(path: &OnePath, tables: &Tables, tries: u32) -> Round
    requires { path.now.sheet.cells ≤ length tables.now.marks.now }
    ensures { Begun path.now (take path.now.sheet.cells tables.now.marks.now) tries result.at }
{
    let marks = &*tables.marks;
    Round::of(path, &marks[..path.sheet.cells], tries)
}

// Opens a round that so many setter's and working cells are lent to.
pub(crate) fn open_with(
    bytes: &[u8],
    tables: &mut Tables,
    setter: usize,
    working: usize,
    tries: u32,
) -> Result<Round, OpenFault>
    ensures first { found result ≡ open_fault bytes.now (lent_by (holds tables.old) setter working) tries }
    ensures opens { Opens bytes.now (holds tables.old) (holds tables.new) tries setter working result }
    ensures same { SameTables tables.old tables.new }
{
    check_opening(bytes, Lent::of(tables, setter, working), tries)?;
    let path = convert(bytes, tables.lines, tables.marks, tables.steps)?;
    Ok(new_round(&path, tables, tries))
}

// Opens a round: reads the sheet, covers its cells and writes its steps. A refused opening touches nothing.
pub fn open<V: Value>(
    bytes: &[u8],
    tables: &mut Tables,
    setter: &[V],
    working: &[V],
    tries: u32,
) -> Result<Round, OpenFault>
    ensures first { found result ≡ open_fault bytes.now (lent_by (holds tables.old) (length setter.now) (length working.now)) tries }
    ensures opens { Opens bytes.now (holds tables.old) (holds tables.new) tries (length setter.now) (length working.now) result }
    ensures same { SameTables tables.old tables.new }
{
    open_with(bytes, tables, setter.len(), working.len(), tries)
}
