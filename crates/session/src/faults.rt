// Why a round is not opened.
ghost use Rattle.std.specs.Prelude.{◌≡◌};
ghost use Rattle.std.proofs.Common.{rules};
ghost use Rattle.session.specs.Refusals.{number_of, place_of, layer_of, play_number, play_place, play_layer};
ghost use Rattle.session.specs.declared.faults.OpenFault.TheVariants.{Convert};
ghost use Rattle.session.specs.declared.faults.PlayFault.TheVariants.{Open};

use onepath::ConvertFault;
use sheet::{Fault, Layer};

#[derive(Clone, Copy)]
pub enum OpenFault {
    // The sheet is not converted, for the conversion's reason.
    Convert(ConvertFault),
    // There are not as many setter's cells as the sheet has.
    SetterCells,
    // There are not as many working cells as the sheet has.
    WorkingCells,
    // The tries are not 1 to 100.
    Tries,
}

impl From<ConvertFault> for OpenFault {
    ghost from_gives = { λ e r. r ≡ Convert e };

    fn from(e: ConvertFault) -> OpenFault {
        OpenFault::Convert(e)
    }
}

impl Fault for OpenFault {
    ghost numbered = { number_of };

    ghost placed = { place_of };

    ghost found_in = { layer_of };

    ghost counted = { Prim.search rules };

    fn number(&self) -> u32 {
        match *self {
            OpenFault::Convert(fault) => fault.number(),
            OpenFault::SetterCells | OpenFault::WorkingCells => 8,
            OpenFault::Tries => 9,
        }
    }

    fn place(&self) -> usize {
        match *self {
            OpenFault::Convert(fault) => fault.place(),
            OpenFault::SetterCells => 1,
            OpenFault::WorkingCells => 2,
            OpenFault::Tries => 0,
        }
    }

    fn layer(&self) -> Layer {
        match *self {
            OpenFault::Convert(fault) => fault.layer(),
            _ => Layer::Opening,
        }
    }
}

// Why a list is not played.
#[derive(Clone, Copy)]
pub enum PlayFault {
    // The round is not opened, for the opening's reason.
    Open(OpenFault),
    // There are fewer answer places than calls.
    Answers,
}

impl From<OpenFault> for PlayFault {
    ghost from_gives = { λ e r. r ≡ Open e };

    fn from(e: OpenFault) -> PlayFault {
        PlayFault::Open(e)
    }
}

impl Fault for PlayFault {
    ghost numbered = { play_number };

    ghost placed = { play_place };

    ghost found_in = { play_layer };

    ghost counted = { Prim.search rules };

    fn number(&self) -> u32 {
        match *self {
            PlayFault::Open(fault) => fault.number(),
            PlayFault::Answers => 7,
        }
    }

    fn place(&self) -> usize {
        match *self {
            PlayFault::Open(fault) => fault.place(),
            PlayFault::Answers => 4,
        }
    }

    fn layer(&self) -> Layer {
        match *self {
            PlayFault::Open(fault) => fault.layer(),
            PlayFault::Answers => Layer::Playing,
        }
    }
}
