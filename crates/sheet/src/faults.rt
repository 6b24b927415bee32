// Why a sheet is not read. `at` is the byte, counted from the sheet's start, that is the refusal's place.
ghost use Rattle.std.specs.Prelude.{◌≡◌};
ghost use Rattle.std.proofs.Common.{rules};
ghost use Rattle.sheet.specs.Refusals.{number_of, place_of, layer_of};

use crate::fault_kinds::Fault;

#[derive(Clone, Copy)]
pub enum ReadFault {
    // Fewer bytes than a header has.
    Short,
    // A header field that counts or names cells or lines is out of its limits.
    Limit { at: usize },
    // A header field that says where a part lies, or how long the sheet is, is wrong.
    Offset { at: usize },
    // A mark is no cell of the sheet, or is not above the mark before it.
    Mark { at: usize },
    // A byte of a line that such a line may not have.
    Byte { at: usize },
    // An `else` or an `end` with nothing to belong to, a construct too deep, or one still open at the end.
    Nesting { at: usize },
    // The line table is shorter than the sheet.
    Table,
}

// The part of the work in which a fault was found.
#[derive(Clone, Copy)]
pub enum Layer {
    Reading,
    Marking,
    Conversion,
    Running,
    Opening,
    Playing,
}

impl Fault for ReadFault {
    ghost numbered = { number_of };

    ghost placed = { place_of };

    ghost found_in = { layer_of };

    ghost counted = { Prim.search rules };

    fn number(&self) -> u32 {
        match *self {
            ReadFault::Short => 1,
            ReadFault::Limit { .. } => 2,
            ReadFault::Offset { .. } => 3,
            ReadFault::Mark { .. } => 4,
            ReadFault::Byte { .. } => 5,
            ReadFault::Nesting { .. } => 6,
            ReadFault::Table => 7,
        }
    }

    fn place(&self) -> usize {
        match *self {
            ReadFault::Short => 0,
            ReadFault::Limit { at } => at,
            ReadFault::Offset { at } => at,
            ReadFault::Mark { at } => at,
            ReadFault::Byte { at } => at,
            ReadFault::Nesting { at } => at,
            ReadFault::Table => 1,
        }
    }

    fn layer(&self) -> Layer {
        Layer::Reading
    }
}
