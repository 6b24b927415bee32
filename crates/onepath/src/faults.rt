// Why a sheet is not converted.
ghost use Rattle.std.specs.Prelude.{◌≡◌};
ghost use Rattle.std.proofs.Common.{rules};
ghost use Rattle.onepath.specs.Refusals.{number_of, place_of, layer_of};
ghost use Rattle.onepath.specs.declared.faults.ConvertFault.TheVariants.{Mark};

use marking::MarkFault;
use sheet::{Fault, Layer};

#[derive(Clone, Copy)]
pub enum ConvertFault {
    // The sheet is not marked, for the marking's reason.
    Mark(MarkFault),
    // The step table has fewer places than twice the sheet's lines.
    Table,
}

impl From<MarkFault> for ConvertFault {
    ghost from_gives = { λ e r. r ≡ Mark e };

    fn from(e: MarkFault) -> ConvertFault {
        ConvertFault::Mark(e)
    }
}

impl Fault for ConvertFault {
    ghost numbered = { number_of };

    ghost placed = { place_of };

    ghost found_in = { layer_of };

    ghost counted = { Prim.search rules };

    fn number(&self) -> u32 {
        match *self {
            ConvertFault::Mark(fault) => fault.number(),
            ConvertFault::Table => 7,
        }
    }

    fn place(&self) -> usize {
        match *self {
            ConvertFault::Mark(fault) => fault.place(),
            ConvertFault::Table => 3,
        }
    }

    fn layer(&self) -> Layer {
        match *self {
            ConvertFault::Mark(fault) => fault.layer(),
            ConvertFault::Table => Layer::Conversion,
        }
    }
}
