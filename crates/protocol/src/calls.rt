// A round is laid out, cell by cell, until it is started, and in play until it is withdrawn or scored.
#[derive(Clone, Copy, PartialEq, Debug)]
pub enum Phase {
    Laying,
    InPlay,
}

// What can be asked of a round.
#[derive(Clone, Copy, PartialEq, Debug)]
pub enum Call {
    // Writes a literal into a setter's cell.
    Put { cell: usize, number: u32 },
    // Takes a try and begins a run from the setter's cells.
    Start,
    // Takes at most so many steps of the run.
    Advance { steps: u32 },
    // Asks for the number of a working cell.
    Look { cell: usize },
    // Gives the run up.
    Withdraw,
    // Asks for the verdict of a run that is over.
    Score,
}
