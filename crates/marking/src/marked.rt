use sheet::Sheet;

// A sheet whose cells are marked, and how many passes over its lines that took.
#[derive(Clone, Copy)]
pub struct Marked<'a> {
    pub sheet: Sheet<'a>,
    pub passes: usize,
}
