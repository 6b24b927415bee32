// Which of a sheet's cells are marked, and which are covered.
ghost use Rattle.std.specs.Prelude.{◌≡◌, ◌≤◌, true, false, length, take, slice_index_or, slice_set};
ghost use Rattle.round.specs.Tables.{Marks, Pads};

use crate::slices::front;
use run::put;

// Two lists and not one of pairs: the rules speak of the marked cells and of the covered ones apart, each as a list.
#[derive(Clone, Copy)]
pub struct Secrets {
    pub(crate) marked: [bool; 64],
    pub(crate) covered: [bool; 64],
}

impl Secrets {
    // The secrets of a sheet with this mark list, whose cells are covered as the marks say.
    pub(crate) fn of(list: &[u8], marks: &[bool]) -> Secrets
        ensures marked { Marks list.now result.marked }
        ensures covered { Pads (take 64 marks.now) result.covered }
        ensures long { length result.marked ≡ 64 }
    {
        Secrets {
            marked: marked_table(list),
            covered: covered_table(front(marks, 64)),
        }
    }

    pub(crate) fn is_marked(&self, cell: usize) -> bool
        ensures { result ≡ slice_index_or self.now.marked cell false }
    {
        self.marked.get(cell).copied().unwrap_or(false)
    }

    pub(crate) fn is_covered(&self, cell: usize) -> bool
        ensures { result ≡ slice_index_or self.now.covered cell false }
    {
        self.covered.get(cell).copied().unwrap_or(false)
    }
}

// The table of a sheet's mark list: yes at each cell of the list.
fn marked_table(list: &[u8]) -> [bool; 64]
    ensures { Marks list.now result }
{
    let mut table = [false; 64];
    for cell in list {
        put(&mut table, *cell as usize, true);
    }
    table
}

// The marks, with no cell covered past them.
fn covered_table(marks: &[bool]) -> [bool; 64]
    requires { length marks.now ≤ 64 }
    ensures { Pads marks.now result }
{
    let mut table = [false; 64];
    table[0..marks.len()].copy_from_slice(marks);
    table
}
