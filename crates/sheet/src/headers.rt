// A sheet that was read: its numbers, and its mark list where it lies among the bytes.
#[derive(Clone, Copy)]
pub struct Sheet<'a> {
    pub cells: usize,
    // How many lines of a lent table are the sheet's: a number alone, since the table is its caller's.
    pub lines: usize,
    pub verdict: usize,
    pub marks: &'a [u8],
}

// The first four numbers of a header.
#[derive(Clone, Copy)]
pub struct Header {
    pub cells: usize,
    pub marked: usize,
    pub lines: usize,
    pub verdict: usize,
}
