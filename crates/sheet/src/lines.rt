// A line of a sheet, as the line table keeps it. A construct's lines know each other by number: an `if` its
// `else`, an `else` its `end`, a loop its `end`, and an `end` the line that opened its construct: by number, since the
// table is lent and nothing here takes memory. An operation is its number too, since each kind of values has its own.
#[derive(Clone, Copy)]
pub enum Line {
    Work { target: u8, op: u8, a: u8, b: u8 },
    Literal { target: u8, number: u32 },
    If { cell: u8, partner: usize },
    Else { partner: usize },
    End { partner: usize },
    Loop { cell: u8, bound: u8, partner: usize },
}
