// What a byte of a line after the first may be: a cell of the sheet, an operation, a loop's bound, any byte, or 0.
#[derive(Clone, Copy)]
pub enum Rule {
    Cell,
    Operation,
    Bound,
    Any,
    Zero,
}
