// What a round keeps between two calls. The tables and the cells stay with the caller, who lends them to each call.
ghost use Rattle.std.specs.Prelude.{◌≡◌, ◌≢◌, ◌<◌, ◌≤◌, MatchResult};
ghost use Rattle.protocol.specs.declared.calls.Phase.TheVariants.{Laying, InPlay};
ghost use Rattle.protocol.specs.declared.refusals.Refusal.TheVariants.{SetterCells, WorkingCells, NoCell, Phase as WrongPhase};
ghost use Rattle.round.specs.Rounds.{renewed, Begun};

use crate::secrets::Secrets;
use onepath::OnePath;
use protocol::{Phase, Refusal};
use run::Track;

#[derive(Clone, Copy)]
pub struct Record {
    pub(crate) phase: Phase,
    // The tries left.
    pub(crate) tries: u32,
    // How many cells and steps the sheet has, and which cell is the verdict.
    pub(crate) cells: usize,
    pub(crate) steps: usize,
    pub(crate) verdict: usize,
    pub(crate) secrets: Secrets,
    // Where the run is.
    pub(crate) track: Track,
}

// What several calls check first. Each check names its own refusal, so that no call can pass another's.
impl Record {
    pub(crate) fn check_laying(&self) -> Result<(), Refusal>
        ensures { MatchResult result (λ _. self.now.phase ≡ Laying) (λ e. (self.now.phase ≡ InPlay) × (e ≡ WrongPhase)) }
    {
        match self.phase {
            Phase::Laying => Ok(()),
            Phase::InPlay => Err(Refusal::Phase),
        }
    }

    pub(crate) fn check_in_play(&self) -> Result<(), Refusal>
        ensures { MatchResult result (λ _. self.now.phase ≡ InPlay) (λ e. (self.now.phase ≡ Laying) × (e ≡ WrongPhase)) }
    {
        match self.phase {
            Phase::Laying => Err(Refusal::Phase),
            Phase::InPlay => Ok(()),
        }
    }

    pub(crate) fn check_setter_cells(&self, count: usize) -> Result<(), Refusal>
        ensures { MatchResult result (λ _. count ≡ self.now.cells) (λ e. (count ≢ self.now.cells) × (e ≡ SetterCells)) }
    {
        if count != self.cells {
            return Err(Refusal::SetterCells);
        }
        Ok(())
    }

    pub(crate) fn check_working_cells(&self, count: usize) -> Result<(), Refusal>
        ensures { MatchResult result (λ _. count ≡ self.now.cells) (λ e. (count ≢ self.now.cells) × (e ≡ WorkingCells)) }
    {
        if count != self.cells {
            return Err(Refusal::WorkingCells);
        }
        Ok(())
    }

    pub(crate) fn check_cell(&self, cell: usize) -> Result<(), Refusal>
        ensures { MatchResult result (λ _. cell < self.now.cells) (λ e. (self.now.cells ≤ cell) × (e ≡ NoCell cell)) }
    {
        if cell >= self.cells {
            return Err(Refusal::NoCell { cell });
        }
        Ok(())
    }
}

// A record whose tries are never more than a round is opened with.
#[derive(Drop)]
pub struct Round {
    pub(crate) at: Record,
    ghost few: { at.tries ≤ 100 },
}

impl Round {
    // A new round of a sheet that was converted, whose cells are covered as the marks say.
    pub fn of(path: &OnePath, marks: &[bool], tries: u32) -> Round
        ensures { Begun path.now marks.now tries result.at }
    {
        Round {
            at: Record {
                phase: Phase::Laying,
                tries: tries.min(100),
                cells: path.sheet.cells,
                steps: path.steps,
                verdict: path.sheet.verdict,
                secrets: Secrets::of(path.sheet.marks, marks),
                track: Track::new(),
            },
        }
    }

    // A new round of the same sheet, as opening it again would give.
    pub fn again(&self, tries: u32) -> Round
        ensures { result.at ≡ renewed self.now.at tries }
    {
        Round {
            at: Record {
                phase: Phase::Laying,
                tries: tries.min(100),
                track: Track::new(),
                ..self.at
            },
        }
    }

    pub fn phase(&self) -> Phase
        ensures { result ≡ self.now.at.phase }
    {
        self.at.phase
    }
}
