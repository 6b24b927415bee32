// Why a sheet is not run.
ghost use Rattle.std.specs.Prelude.{◌≡◌};
ghost use Rattle.std.proofs.Common.{rules};
ghost use Rattle.run.specs.Refusals.{number_of, place_of, layer_of};
ghost use Rattle.run.specs.declared.faults.RunFault.TheVariants.{Read};

use sheet::{Fault, Layer, ReadFault};

#[derive(Clone, Copy)]
pub enum RunFault {
    // The sheet is not read, for the reader's reason.
    Read(ReadFault),
    // There are not as many cells as the sheet has.
    Cells,
}

impl From<ReadFault> for RunFault {
    ghost from_gives = { λ e r. r ≡ Read e };

    fn from(e: ReadFault) -> RunFault {
        RunFault::Read(e)
    }
}

impl Fault for RunFault {
    ghost numbered = { number_of };

    ghost placed = { place_of };

    ghost found_in = { layer_of };

    ghost counted = { Prim.search rules };

    fn number(&self) -> u32 {
        match *self {
            RunFault::Read(fault) => fault.number(),
            RunFault::Cells => 8,
        }
    }

    fn place(&self) -> usize {
        match *self {
            RunFault::Read(fault) => fault.place(),
            RunFault::Cells => 1,
        }
    }

    fn layer(&self) -> Layer {
        match *self {
            RunFault::Read(fault) => fault.layer(),
            RunFault::Cells => Layer::Running,
        }
    }
}
