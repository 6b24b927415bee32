// Why a sheet is not marked.
ghost use Rattle.std.specs.Prelude.{◌≡◌};
ghost use Rattle.std.proofs.Common.{rules};
ghost use Rattle.marking.specs.Refusals.{number_of, place_of, layer_of};
ghost use Rattle.marking.specs.declared.faults.MarkFault.TheVariants.{Read};

use sheet::{Fault, Layer, ReadFault};

#[derive(Clone, Copy)]
pub enum MarkFault {
    // The sheet is not read, for the reader's reason.
    Read(ReadFault),
    // The mark table has fewer places than the sheet has cells.
    Table,
}

impl From<ReadFault> for MarkFault {
    ghost from_gives = { λ e r. r ≡ Read e };

    fn from(e: ReadFault) -> MarkFault {
        MarkFault::Read(e)
    }
}

impl Fault for MarkFault {
    ghost numbered = { number_of };

    ghost placed = { place_of };

    ghost found_in = { layer_of };

    ghost counted = { Prim.search rules };

    fn number(&self) -> u32 {
        match *self {
            MarkFault::Read(fault) => fault.number(),
            MarkFault::Table => 7,
        }
    }

    fn place(&self) -> usize {
        match *self {
            MarkFault::Read(fault) => fault.place(),
            MarkFault::Table => 2,
        }
    }

    fn layer(&self) -> Layer {
        match *self {
            MarkFault::Read(fault) => fault.layer(),
            MarkFault::Table => Layer::Marking,
        }
    }
}
