// Opening a round and playing a list on it; and one list on two rounds.
ghost use Rattle.std.specs.Prelude.{◌≡◌, ◌≤◌, length};
ghost use Rattle.sheet.specs.Results.{found};
ghost use Rattle.session.specs.Lists.{desk_at, SameBoard, HearsAll};
ghost use Rattle.session.specs.Opening.{holds, lent_by, SameTables};
ghost use Rattle.session.specs.Playing.{play_fault, pair_fault, side_at, Plays, PlaysBoth};

use crate::faults::PlayFault;
use crate::lists::{Board, answer_all};
use crate::opening::{Lent, Tables, check_opening, open_with};
use protocol::{Answer, Call};
use round::Round;
use value::Value;
use watch::Watcher;

// Plays all the calls, by the steps in the tables.
fn play_calls<V: Value, W: Watcher>(
    round: &mut Round,
    tables: &Tables,
    board: &mut Board<V, W>,
    calls: &[Call],
    answers: &mut [Answer],
)
    requires { length calls.now ≤ length answers.old }
    ensures hears { HearsAll V.Value W.Watcher tables.now.steps.now (desk_at round.old.at board.old) (desk_at round.new.at board.new) calls.now answers.old answers.new }
    ensures same { SameBoard board.old board.new }
    ensures loan { W.Watcher.loan board.new.watcher.now ≡ W.Watcher.loan board.old.watcher.now }
{
    let steps = &*tables.steps;
    answer_all(round, steps, board, calls, answers);
}

// Opens a round and plays a list of calls on it. What is told after each call is what the plain round tells, is alike
// for every other opening that differs in marked cells only, and every score is deserved.
pub fn play_list<V: Value, W: Watcher>(
    bytes: &[u8],
    tables: &mut Tables,
    tries: u32,
    board: &mut Board<V, W>,
    calls: &[Call],
    answers: &mut [Answer],
) -> Result<(), PlayFault>
    ensures first { found result ≡ play_fault bytes.now (lent_by (holds tables.old) (length board.old.setter.now) (length board.old.working.now)) tries (length calls.now) (length answers.old) }
    ensures plays { Plays V.Value W.Watcher bytes.now (holds tables.old) (holds tables.new) tries (side_at board.old answers.old) (side_at board.new answers.new) calls.now result }
    ensures same_tables { SameTables tables.old tables.new }
    ensures same_board { SameBoard board.old board.new }
    ensures loan { W.Watcher.loan board.new.watcher.now ≡ W.Watcher.loan board.old.watcher.now }
{
    let setter = board.setter.len();
    let working = board.working.len();
    check_opening(bytes, Lent::of(tables, setter, working), tries)?;
    if answers.len() < calls.len() {
        return Err(PlayFault::Answers);
    }
    let mut round = open_with(bytes, tables, setter, working, tries)?;
    play_calls(&mut round, tables, board, calls, answers);
    Ok(())
}

// Plays one list on two rounds of one sheet. Where their setter's cells differ in marked cells only and their watchers
// mean the same at first, the cards are alike after each call, but for accepted scores.
pub fn play_pair<V: Value, W: Watcher>(
    bytes: &[u8],
    tables: &mut Tables,
    tries: u32,
    first: &mut Board<V, W>,
    second: &mut Board<V, W>,
    calls: &[Call],
    first_answers: &mut [Answer],
    second_answers: &mut [Answer],
) -> Result<(), PlayFault>
    ensures first { found result ≡ pair_fault bytes.now (lent_by (holds tables.old) (length first.old.setter.now) (length first.old.working.now)) (lent_by (holds tables.old) (length second.old.setter.now) (length second.old.working.now)) tries (length calls.now) (length first_answers.old) (length second_answers.old) }
    ensures plays { PlaysBoth V.Value W.Watcher bytes.now (holds tables.old) (holds tables.new) tries (side_at first.old first_answers.old) (side_at first.new first_answers.new) (side_at second.old second_answers.old) (side_at second.new second_answers.new) calls.now result }
    ensures same_tables { SameTables tables.old tables.new }
    ensures same_boards { SameBoard first.old first.new × SameBoard second.old second.new }
    ensures loans { (W.Watcher.loan first.new.watcher.now ≡ W.Watcher.loan first.old.watcher.now) × (W.Watcher.loan second.new.watcher.now ≡ W.Watcher.loan second.old.watcher.now) }
{
    let setter = first.setter.len();
    let working = first.working.len();
    check_opening(bytes, Lent::of(tables, setter, working), tries)?;
    let other_lent = Lent::of(tables, second.setter.len(), second.working.len());
    check_opening(bytes, other_lent, tries)?;
    if first_answers.len() < calls.len() || second_answers.len() < calls.len() {
        return Err(PlayFault::Answers);
    }
    let mut round = open_with(bytes, tables, setter, working, tries)?;
    let mut other = round.again(tries);
    play_calls(&mut round, tables, first, calls, first_answers);
    play_calls(&mut other, tables, second, calls, second_answers);
    Ok(())
}
