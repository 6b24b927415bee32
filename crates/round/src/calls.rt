// The six calls. Each checks the phase first, then what is lent, then what is asked; a refused call moves nothing.
// Each is lent what it reads or writes, and no more, so each takes slices of its own.
ghost use Rattle.std.specs.Prelude.{◌≡◌, ◌-◌, map, length, take};
ghost use Rattle.run.specs.Machine.{state_of};
ghost use Rattle.run.specs.Values.{kind_of, cell_at, stated};
ghost use Rattle.protocol.specs.Calls.{path_score, told_of, moved, answered, Still};
ghost use Rattle.protocol.specs.declared.calls.Phase.TheVariants.{Laying};
ghost use Rattle.round.specs.Rounds.{terms_of, phased, tracked, started, put_says, start_says, advance_says, look_says, withdraw_says, score_says, walk_of};

use crate::records::Round;
use crate::slices::front;
use crate::walking::walk;
use onepath::Step;
use protocol::{Advanced, Phase, Refusal, Score};
use run::{Track, cell as cell_of, is_over, path_verdict, write};
use value::Value;
use watch::Watcher;

// Puts a literal into a setter's cell that is not marked.
pub fn put<V: Value>(
    round: &Round,
    setter: &mut [V],
    cell: usize,
    number: u32,
) -> Result<(), Refusal>
    ensures answer { result ≡ answered (put_says V.Value round.now.at (length setter.old) cell) tt }
    ensures after { map V.Value.meaning setter.new ≡ moved (put_says V.Value round.now.at (length setter.old) cell) (stated (kind_of V.Value) cell number (map V.Value.meaning setter.old)) (map V.Value.meaning setter.old) }
    ensures still { Still (put_says V.Value round.now.at (length setter.old) cell) setter.old setter.new }
{
    round.at.check_laying()?;
    round.at.check_setter_cells(setter.len())?;
    round.at.check_cell(cell)?;
    if round.at.secrets.is_marked(cell) {
        return Err(Refusal::Marked { cell });
    }
    write(setter, cell, V::literal(number));
    Ok(())
}

// Takes a try and begins a run from the setter's cells; answers the tries left.
pub fn start<V: Value>(round: &mut Round, setter: &[V], working: &mut [V]) -> Result<u32, Refusal>
    ensures answer { result ≡ answered (start_says V.Value round.old.at (length setter.now) (length working.old)) (round.old.at.tries - 1) }
    ensures after { round.new.at ≡ moved (start_says V.Value round.old.at (length setter.now) (length working.old)) (started round.old.at) round.old.at }
    ensures cells { working.new ≡ moved (start_says V.Value round.old.at (length setter.now) (length working.old)) setter.now working.old }
{
    round.at.check_laying()?;
    round.at.check_setter_cells(setter.len())?;
    round.at.check_working_cells(working.len())?;
    if round.at.tries == 0 {
        return Err(Refusal::NoTries);
    }
    working.copy_from_slice(setter);
    round.at.phase = Phase::InPlay;
    round.at.tries -= 1;
    round.at.track = Track::new();
    Ok(round.at.tries)
}

// Takes at most `count` steps of the run.
pub fn advance<V: Value, W: Watcher>(
    round: &mut Round,
    steps: &[Step],
    working: &mut [V],
    watcher: &mut W,
    count: u32,
) -> Result<Advanced, Refusal>
    ensures answer { result ≡ answered (advance_says V.Value round.old.at (length working.old)) (told_of (walk_of V.Value W.Watcher (take round.old.at.steps steps.now) count round.old.at.track working.old watcher.old)) }
    ensures after { round.new.at ≡ tracked round.new.at.track round.old.at }
    ensures run { state_of V.Value round.new.at.track working.new ≡ moved (advance_says V.Value round.old.at (length working.old)) (walk_of V.Value W.Watcher (take round.old.at.steps steps.now) count round.old.at.track working.old watcher.old).run (state_of V.Value round.old.at.track working.old) }
    ensures watching { W.Watcher.meaning watcher.new ≡ moved (advance_says V.Value round.old.at (length working.old)) (walk_of V.Value W.Watcher (take round.old.at.steps steps.now) count round.old.at.track working.old watcher.old).watcher (W.Watcher.meaning watcher.old) }
    ensures cells { Still (advance_says V.Value round.old.at (length working.old)) working.old working.new }
    ensures watcher { Still (advance_says V.Value round.old.at (length working.old)) watcher.old watcher.new }
    ensures loan { W.Watcher.loan watcher.new ≡ W.Watcher.loan watcher.old }
{
    round.at.check_in_play()?;
    round.at.check_working_cells(working.len())?;
    let mut track = round.at.track;
    let own = front(steps, round.at.steps);
    let told = walk(&mut track, own, working, watcher, count);
    round.at.track = track;
    Ok(told)
}

// Tells the number of a working cell that is not covered.
pub fn look<V: Value>(round: &Round, working: &[V], cell: usize) -> Result<u32, Refusal>
    ensures { result ≡ answered (look_says V.Value round.now.at (length working.now) cell) (cell_at (kind_of V.Value) (map V.Value.meaning working.now) cell) }
{
    round.at.check_in_play()?;
    round.at.check_working_cells(working.len())?;
    round.at.check_cell(cell)?;
    if round.at.secrets.is_covered(cell) {
        return Err(Refusal::Covered { cell });
    }
    Ok(cell_of(working, cell).code())
}

// The run is given up or scored: the round is laid out again.
fn end_run(round: &mut Round)
    ensures { round.new.at ≡ phased Laying round.old.at }
{
    round.at.phase = Phase::Laying;
}

// Gives the run up.
pub fn withdraw(round: &mut Round) -> Result<(), Refusal>
    ensures answer { result ≡ answered (withdraw_says round.old.at) tt }
    ensures after { round.new.at ≡ moved (withdraw_says round.old.at) (phased Laying round.old.at) round.old.at }
{
    round.at.check_in_play()?;
    // A try that is given up is spent.
    end_run(round);
    Ok(())
}

// Tells the verdict of a run that is over, and ends it.
pub fn score<V: Value>(round: &mut Round, steps: &[Step], working: &[V]) -> Result<Score, Refusal>
    ensures answer { result ≡ answered (score_says V.Value round.old.at steps.now working.now) (path_score (terms_of V.Value round.old.at steps.now) (state_of V.Value round.old.at.track working.now)) }
    ensures after { round.new.at ≡ moved (score_says V.Value round.old.at steps.now working.now) (phased Laying round.old.at) round.old.at }
{
    round.at.check_in_play()?;
    round.at.check_working_cells(working.len())?;
    if !is_over(&round.at.track, front(steps, round.at.steps).len()) {
        return Err(Refusal::Early);
    }
    end_run(round);
    let verdict = path_verdict(&round.at.track, working, round.at.verdict);
    Ok(Score::from(verdict))
}
