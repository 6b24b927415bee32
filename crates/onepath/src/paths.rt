use sheet::Sheet;

// A sheet that was converted, and how many steps it has: a number alone, since the step table is its caller's.
#[derive(Clone, Copy)]
pub struct OnePath<'a> {
    pub sheet: Sheet<'a>,
    pub steps: usize,
}
