// A round in play.
ghost use Rattle.std.specs.Prelude.{◌≡◌, map, length, take, Some, None, MatchResult};
ghost use Rattle.run.specs.Machine.{state_of};
ghost use Rattle.run.specs.Values.{kind_of, cell_at};
ghost use Rattle.protocol.specs.Calls.{path_score, told_of, moved, answered, Still};
ghost use Rattle.protocol.specs.declared.calls.Phase.TheVariants.{Laying as LayingPhase};
ghost use Rattle.round.specs.Rounds.{terms_of, phased, tracked, advance_says, look_says, withdraw_says, score_says, walk_of};

use crate::laying::Laying;
use crate::stub::Stub;
use onepath::Step;
use protocol::{Advanced, Refusal, Score};
use round::Round;
use value::Value;
use watch::Watcher;

// A number beside a record that is to be in play.
#[derive(Drop)]
pub struct InPlay {
    pub(crate) number: u32,
}

impl InPlay {
    // Each phase has this for itself, since the phases are two types.
    pub fn number(&self) -> u32
        ensures { result ≡ self.now.number }
    {
        self.number
    }

    // Takes at most `count` steps of the run.
    pub fn advance<V: Value, W: Watcher>(
        &self,
        round: &mut Round,
        steps: &[Step],
        working: &mut [V],
        watcher: &mut W,
        count: u32,
    ) -> Result<Advanced, Refusal>
        ensures answer { result ≡ answered (advance_says V.Value round.old.at (length working.old)) (told_of (walk_of V.Value W.Watcher (take round.old.at.steps steps.now) count round.old.at.track working.old watcher.old)) }
        ensures after { round.new.at ≡ tracked round.new.at.track round.old.at }
        ensures run { state_of V.Value round.new.at.track working.new ≡ moved (advance_says V.Value round.old.at (length working.old)) (walk_of V.Value W.Watcher (take round.old.at.steps steps.now) count round.old.at.track working.old watcher.old).run (state_of V.Value round.old.at.track working.old) }
        ensures watching { W.Watcher.meaning watcher.new ≡ moved (advance_says V.Value round.old.at (length working.old)) (walk_of V.Value W.Watcher (take round.old.at.steps steps.now) count round.old.at.track working.old watcher.old).watcher (W.Watcher.meaning watcher.old) }
        ensures cells { Still (advance_says V.Value round.old.at (length working.old)) working.old working.new }
        ensures watcher { Still (advance_says V.Value round.old.at (length working.old)) watcher.old watcher.new }
        ensures loan { W.Watcher.loan watcher.new ≡ W.Watcher.loan watcher.old }
    {
        round::advance(round, steps, working, watcher, count)
    }

    // Tells the number of a working cell that is not covered.
    pub fn look<V: Value>(&self, round: &Round, working: &[V], cell: usize) -> Result<u32, Refusal>
        ensures { result ≡ answered (look_says V.Value round.now.at (length working.now) cell) (cell_at (kind_of V.Value) (map V.Value.meaning working.now) cell) }
    {
        round::look(round, working, cell)
    }

    // Gives the run up, and a stub back; a refused withdraw returns both.
    pub fn withdraw(self, stub: Stub, round: &mut Round) -> Result<Laying, (InPlay, Stub, Refusal)>
        ensures answer { MatchResult result (λ l. (withdraw_says round.old.at ≡ None) × (l.number ≡ self.number)) (λ e. (withdraw_says round.old.at ≡ Some e.2) × (e.0 ≡ self) × (e.1 ≡ stub)) }
        ensures after { round.new.at ≡ moved (withdraw_says round.old.at) (phased LayingPhase round.old.at) round.old.at }
    {
        match round::withdraw(round) {
            Ok(()) => {
                let Stub { number: _ } = stub;
                let InPlay { number } = self;
                Ok(Laying { number })
            }
            Err(refusal) => Err((self, stub, refusal)),
        }
    }

    // Tells the verdict of a run that is over, and takes a stub back; a refused score returns both.
    pub fn score<V: Value>(
        self,
        stub: Stub,
        round: &mut Round,
        steps: &[Step],
        working: &[V],
    ) -> Result<(Laying, Score), (InPlay, Stub, Refusal)>
        ensures answer { MatchResult result (λ l. (score_says V.Value round.old.at steps.now working.now ≡ None) × (l.0.number ≡ self.number) × (l.1 ≡ path_score (terms_of V.Value round.old.at steps.now) (state_of V.Value round.old.at.track working.now))) (λ e. (score_says V.Value round.old.at steps.now working.now ≡ Some e.2) × (e.0 ≡ self) × (e.1 ≡ stub)) }
        ensures after { round.new.at ≡ moved (score_says V.Value round.old.at steps.now working.now) (phased LayingPhase round.old.at) round.old.at }
    {
        match round::score(round, steps, working) {
            Ok(score) => {
                let Stub { number: _ } = stub;
                let InPlay { number } = self;
                Ok((Laying { number }, score))
            }
            Err(refusal) => Err((self, stub, refusal)),
        }
    }
}
