// What is printed of the answers.
ghost use Rattle.std.specs.Prelude.{◌≡◌, ◌++◌, map, codes, IfOk, string_bytes, Decides};
ghost use Rattle.std.specs.List.{zip};
ghost use Rattle.protocol.specs.Promise.{shared};
ghost use Rattle.protocol.specs.Texts.{answer_text};
ghost use Rattle.script.specs.Texts.{call_lines, both_text, answers_text, round_text, pair_text, cards_text};

use protocol::Answer;
use std::alloc::{AllocError, Global};

// What a round told: its answers, and its watcher in words.
#[derive(Clone, Copy)]
pub struct Told<'a> {
    pub answers: &'a [Answer],
    pub watched: &'a str,
}

// What two rounds tell: once where it is alike, else the first's and the second's.
pub fn both(heap: Global, first: &str, second: &str) -> Result<String, AllocError>
    ensures { IfOk result (λ s. string_bytes s ≡ both_text first.now second.now) }
{
    if first == second {
        String::from_str(heap, first)
    } else {
        format!(in heap; "{first} | {second}")
    }
}

// What an answer says to everybody: all of it, but for what an accepted score says.
fn shared(answer: &Answer) -> Option<Answer>
    ensures { result ≡ shared answer.now }
{
    match answer {
        Answer::Scored { score: _ } => None,
        told => Some(*told),
    }
}

// Whether two rounds told the same but for what accepted scores say.
pub fn cards_alike(first: Told, second: Told) -> bool
    ensures { Decides result ((first.entry.watched.now ≡ second.entry.watched.now) × (map shared first.entry.answers.now ≡ map shared second.entry.answers.now)) }
{
    first.watched == second.watched && all_alike(first.answers, second.answers)
}

// Whether the answers are alike, one by one, but for what accepted scores say.
fn all_alike(first: &[Answer], second: &[Answer]) -> bool
    ensures { Decides result (map shared first.now ≡ map shared second.now) }
{
    first.len() == second.len()
        && first
            .iter()
            .map(shared)
            .zip(second.iter().map(shared))
            .all(|(one, other)| one == other)
}

// The line that says so: words of the program, which cannot fail, as printing can.
pub fn cards_line(alike: bool) -> &'static str
    ensures { result.now ≡ cards_text alike }
{
    if alike {
        "cards alike\n"
    } else {
        "cards differ\n"
    }
}

// The calls, each with what a round told of it. Each line is written as it is told, so that nothing is held beside the
// text.
fn round_lines(heap: Global, calls: &[String], answers: &[Answer]) -> Result<String, AllocError>
    ensures { IfOk result (λ s. string_bytes s ≡ call_lines (map string_bytes calls.now) (map answer_text answers.now)) }
{
    let mut text = String::new(heap);
    for (call, answer) in calls.iter().zip(answers) {
        writeln!(text, "{call}: {answer}")?;
    }
    Ok(text)
}

// The same of two rounds.
fn pair_lines(
    heap: Global,
    calls: &[String],
    first: &[Answer],
    second: &[Answer],
) -> Result<String, AllocError>
    ensures { IfOk result (λ s. string_bytes s ≡ call_lines (map string_bytes calls.now) (map answers_text (zip first.now second.now))) }
{
    let mut text = String::new(heap);
    for (call, (one, other)) in calls.iter().zip(first.iter().zip(second)) {
        let one_told = one.to_string(heap)?;
        let other_told = other.to_string(heap)?;
        let told = both(heap, one_told.as_str(), other_told.as_str())?;
        writeln!(text, "{call}: {told}")?;
    }
    Ok(text)
}

// The lines of a round: each call with its answer, and the watcher. One text of several parts; `Display` would want a
// struct for it.
pub fn round_text(heap: Global, calls: &[String], told: Told) -> Result<String, AllocError>
    ensures { IfOk result (λ s. string_bytes s ≡ round_text (map string_bytes calls.now) told.entry.answers.now told.entry.watched.now) }
{
    let mut text = round_lines(heap, calls, told.answers)?;
    text.push_str(told.watched)?;
    text.push('\n')?;
    Ok(text)
}

// The same of two rounds, and no `Display` for the same reason.
pub fn pair_text(
    heap: Global,
    calls: &[String],
    first: Told,
    second: Told,
) -> Result<String, AllocError>
    ensures { IfOk result (λ s. string_bytes s ≡ pair_text (map string_bytes calls.now) first.entry.answers.now first.entry.watched.now second.entry.answers.now second.entry.watched.now) }
{
    let mut text = pair_lines(heap, calls, first.answers, second.answers)?;
    let watched = both(heap, first.watched, second.watched)?;
    text.push_str(watched.as_str())?;
    text.push('\n')?;
    Ok(text)
}
