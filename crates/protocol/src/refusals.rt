// Why a round refuses a call.
ghost use Rattle.std.specs.Prelude.{◌≡◌};
ghost use Rattle.std.proofs.Common.{rules};
ghost use Rattle.sheet.specs.declared.faults.Layer.TheVariants.{Playing};
ghost use Rattle.protocol.specs.Numbers.{number_of, place_of};

use sheet::{Fault, Layer};

#[derive(Clone, Copy, PartialEq, Debug)]
pub enum Refusal {
    // There are not as many setter's cells as the sheet has.
    SetterCells,
    // There are not as many working cells as the sheet has.
    WorkingCells,
    // The sheet has no such cell.
    NoCell { cell: usize },
    // The cell is marked, and is not written by a put.
    Marked { cell: usize },
    // The cell is covered, and is not shown.
    Covered { cell: usize },
    // The phase does not allow the call.
    Phase,
    // No tries are left.
    NoTries,
    // The run is not over.
    Early,
}

// It is found while the round is played.
impl Fault for Refusal {
    ghost numbered = { number_of };

    ghost placed = { place_of };

    ghost found_in = { λ _. Playing };

    ghost counted = { Prim.search rules };

    fn number(&self) -> u32 {
        match *self {
            Refusal::SetterCells | Refusal::WorkingCells => 8,
            Refusal::NoCell { cell: _ } => 10,
            Refusal::Marked { cell: _ } | Refusal::Covered { cell: _ } => 11,
            Refusal::Phase => 12,
            Refusal::NoTries => 13,
            Refusal::Early => 14,
        }
    }

    fn place(&self) -> usize {
        match *self {
            Refusal::SetterCells => 1,
            Refusal::WorkingCells => 2,
            Refusal::NoCell { cell } => cell,
            Refusal::Marked { cell } => cell,
            Refusal::Covered { cell } => cell,
            Refusal::Phase | Refusal::NoTries | Refusal::Early => 0,
        }
    }

    fn layer(&self) -> Layer {
        Layer::Playing
    }
}
