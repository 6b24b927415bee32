// Calls and answers as records, one by one and in lists.
ghost use Rattle.std.specs.Prelude.{◌≡◌, ◌≤◌, length};
ghost use Rattle.sheet.specs.Results.{found};
ghost use Rattle.session.specs.Lists.{recorded, desk_of, desk_at, SameBoard, Hears, HearsAll, list_fault, Lists};

use crate::faults::PlayFault;
use onepath::Step;
use protocol::{Answer, Call, Phase, Refusal};
use round::{Round, advance, look, put, score, start, withdraw};
use value::Value;
use watch::Watcher;

// The cells and the watcher that a round is lent. The answer places come beside them, since one call alone needs none.
// The watcher is lent for a time of its own: with one lifetime for all no proof follows two boards made in one function.
#[derive(Drop)]
pub struct Board<'a, 'w, V, W> {
    pub setter: &'a mut [V],
    pub working: &'a mut [V],
    pub watcher: &'w mut W,
}

// What one call comes to: the phase and the call together decide. The parts of a board come one by one, since most
// calls only read some of them, and no proof follows a list that is lent on from a struct to be read beside others.
fn hear<V: Value, W: Watcher>(
    round: &mut Round,
    steps: &[Step],
    setter: &mut [V],
    working: &mut [V],
    watcher: &mut W,
    call: Call,
) -> Result<Answer, Refusal>
    ensures hears { Hears V.Value W.Watcher steps.now (desk_of round.old.at setter.old working.old watcher.old) (desk_of round.new.at setter.new working.new watcher.new) call (recorded (λ a. a) result) }
    ensures loan { W.Watcher.loan watcher.new ≡ W.Watcher.loan watcher.old }
{
    match (round.phase(), call) {
        (Phase::Laying, Call::Put { cell, number }) => {
            put(round, setter, cell, number).map(|()| Answer::Done)
        }
        (Phase::Laying, Call::Start) => {
            start(round, setter, working).map(|tries| Answer::Left { tries })
        }
        (Phase::InPlay, Call::Advance { steps: count }) => {
            advance(round, steps, working, watcher, count).map(|advanced| Answer::Walked {
                advanced,
            })
        }
        (Phase::InPlay, Call::Look { cell }) => {
            look(round, working, cell).map(|code| Answer::Shown { code })
        }
        (Phase::InPlay, Call::Withdraw) => withdraw(round).map(|()| Answer::Done),
        (Phase::InPlay, Call::Score) => {
            score(round, steps, working).map(|score| Answer::Scored { score })
        }
        _ => Err(Refusal::Phase),
    }
}

// Answers one call.
pub fn answer_call<V: Value, W: Watcher>(
    round: &mut Round,
    steps: &[Step],
    board: &mut Board<V, W>,
    call: Call,
) -> Answer
    ensures hears { Hears V.Value W.Watcher steps.now (desk_at round.old.at board.old) (desk_at round.new.at board.new) call result }
    ensures same { SameBoard board.old board.new }
    ensures loan { W.Watcher.loan board.new.watcher.now ≡ W.Watcher.loan board.old.watcher.now }
{
    match hear(
        round,
        steps,
        board.setter,
        board.working,
        board.watcher,
        call,
    ) {
        Ok(answer) => answer,
        Err(refusal) => Answer::Refused { refusal },
    }
}

// Plays all the calls. The answer places are written by index, since no proof follows what an adapter of `iter_mut`
// leaves in a list.
pub(crate) fn answer_all<V: Value, W: Watcher>(
    round: &mut Round,
    steps: &[Step],
    board: &mut Board<V, W>,
    calls: &[Call],
    answers: &mut [Answer],
)
    requires { length calls.now ≤ length answers.old }
    ensures hears { HearsAll V.Value W.Watcher steps.now (desk_at round.old.at board.old) (desk_at round.new.at board.new) calls.now answers.old answers.new }
    ensures same { SameBoard board.old board.new }
    ensures loan { W.Watcher.loan board.new.watcher.now ≡ W.Watcher.loan board.old.watcher.now }
{
    for (i, call) in calls.iter().enumerate() {
        answers[i] = answer_call(round, steps, board, *call);
    }
}

// Plays a list of calls on a round, and writes down the answers. A list with too few answer places is not begun.
pub fn run_list<V: Value, W: Watcher>(
    round: &mut Round,
    steps: &[Step],
    board: &mut Board<V, W>,
    calls: &[Call],
    answers: &mut [Answer],
) -> Result<(), PlayFault>
    ensures first { found result ≡ list_fault (length calls.now) (length answers.old) }
    ensures lists { Lists V.Value W.Watcher steps.now (desk_at round.old.at board.old) (desk_at round.new.at board.new) calls.now answers.old answers.new result }
    ensures same { SameBoard board.old board.new }
    ensures loan { W.Watcher.loan board.new.watcher.now ≡ W.Watcher.loan board.old.watcher.now }
{
    if answers.len() < calls.len() {
        return Err(PlayFault::Answers);
    }
    answer_all(round, steps, board, calls, answers);
    Ok(())
}
