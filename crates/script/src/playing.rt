// A script played.
ghost use Rattle.std.specs.Prelude.{◌≡◌, min};

use crate::headings::{Base, Lengths, ValueKind};
use crate::reading::Script;
use crate::telling::{Told, cards_alike, cards_line, pair_text, round_text};
use onepath::Step;
use protocol::{Answer, Call};
use report::refusal_line;
use session::{Board, play_list, play_pair};
use sheet::Line;
use std::alloc::{AllocError, Global};
use std::fmt::Display;
use value::{Candidates, Number, Value};
use watch::{Allowance, Roll, Tally, Watcher};

// The tables that rounds are lent.
#[derive(Drop)]
struct Tables {
    lines: Vec<Line>,
    marks: Vec<bool>,
    steps: Vec<Step>,
}

// What a round has of its own: what it is lent, and its watcher.
#[derive(Drop)]
struct Seat<V, W> {
    setter: Vec<V>,
    working: Vec<V>,
    answers: Vec<Answer>,
    watcher: W,
}

// What is played, and whose memory it takes.
#[derive(Clone, Copy)]
struct Playing<'a> {
    heap: Global,
    script: &'a Script,
}

// What is lent for a length that is asked for: no more than makes a difference.
fn lent(asked: u32, most: usize) -> usize
    ensures { result ≡ min most asked }
{
    most.min(asked as usize)
}

// How many places the calls can come to: no advance comes to more than the steps that it asks for.
fn most_places(calls: &[Call]) -> usize {
    calls
        .iter()
        .filter_map(|call| match call {
            Call::Advance { steps } => Some(*steps as usize),
            _ => None,
        })
        .fold(0, |most, steps| most.saturating_add(steps))
}

impl<'a> Playing<'a> {
    // No sheet has more than 512 lines or 64 cells, or gives more than 1024 steps.
    fn tables(&self) -> Result<Tables, AllocError> {
        let heap = self.heap;
        let lengths = self.script.tables.unwrap_or(Lengths {
            lines: 512,
            marks: 64,
            steps: 1024,
        });
        Ok(Tables {
            lines: vec![in heap; Line::Else { partner: 0 }; lent(lengths.lines, 512)]?,
            marks: vec![in heap; false; lent(lengths.marks, 64)]?,
            steps: vec![in heap; Step::Jump { to: 0 }; lent(lengths.steps, 1024)]?,
        })
    }

    // More than 64 working cells are too many for any sheet, and a spare answer is like any other.
    fn seat<V: Value, W: Watcher + Drop>(
        &self,
        cells: &[u32],
        watcher: W,
    ) -> Result<Seat<V, W>, AllocError> {
        let heap = self.heap;
        let calls = self.script.calls.len();
        let working = self
            .script
            .working
            .map_or(cells.len(), |asked| lent(asked, 65));
        let answers = self
            .script
            .answers
            .map_or(calls, |asked| lent(asked, calls.saturating_add(1)));
        Ok(Seat {
            setter: cells.iter().map(|n| V::literal(*n)).collect(heap)?,
            working: vec![in heap; V::literal(0); working]?,
            answers: vec![in heap; Answer::Done; answers]?,
            watcher,
        })
    }

    fn play_one<V: Value, W: Watcher + Display + Drop>(
        &self,
        watcher: W,
    ) -> Result<String, AllocError> {
        let heap = self.heap;
        let script = self.script;
        let mut tables = self.tables()?;
        let mut seat = self.seat::<V, W>(script.first.as_slice(), watcher)?;
        let played = play_list(
            script.sheet.as_slice(),
            &mut session::Tables {
                lines: &mut tables.lines,
                marks: &mut tables.marks,
                steps: &mut tables.steps,
            },
            script.tries,
            &mut Board {
                setter: &mut seat.setter,
                working: &mut seat.working,
                watcher: &mut seat.watcher,
            },
            script.calls.as_slice(),
            &mut seat.answers,
        );
        if let Err(fault) = played {
            return refusal_line(heap, fault);
        }
        let watched = seat.watcher.to_string(heap)?;
        round_text(heap, script.words.as_slice(), seat.told(watched.as_str()))
    }

    fn play_two<V: Value, W: Watcher + Display + Drop>(
        &self,
        cells: &[u32],
        first: W,
        second: W,
    ) -> Result<String, AllocError> {
        let heap = self.heap;
        let script = self.script;
        let mut tables = self.tables()?;
        let mut one = self.seat::<V, W>(script.first.as_slice(), first)?;
        let mut other = self.seat::<V, W>(cells, second)?;
        let played = play_pair(
            script.sheet.as_slice(),
            &mut session::Tables {
                lines: &mut tables.lines,
                marks: &mut tables.marks,
                steps: &mut tables.steps,
            },
            script.tries,
            &mut Board {
                setter: &mut one.setter,
                working: &mut one.working,
                watcher: &mut one.watcher,
            },
            &mut Board {
                setter: &mut other.setter,
                working: &mut other.working,
                watcher: &mut other.watcher,
            },
            script.calls.as_slice(),
            &mut one.answers,
            &mut other.answers,
        );
        if let Err(fault) = played {
            return refusal_line(heap, fault);
        }
        self.cards(&one, &other)
    }

    // What is printed of two rounds that were played.
    fn cards<V, W: Display>(
        &self,
        one: &Seat<V, W>,
        other: &Seat<V, W>,
    ) -> Result<String, AllocError> {
        let heap = self.heap;
        let watched = one.watcher.to_string(heap)?;
        let other_watched = other.watcher.to_string(heap)?;
        let first = one.told(watched.as_str());
        let second = other.told(other_watched.as_str());
        let mut text = pair_text(heap, self.script.words.as_slice(), first, second)?;
        text.push_str(cards_line(cards_alike(first, second)))?;
        Ok(text)
    }

    fn play_rounds<V: Value, W: Watcher + Display + Drop>(
        &self,
        first: W,
        second: W,
    ) -> Result<String, AllocError> {
        match &self.script.second {
            None => self.play_one::<V, W>(first),
            Some(cells) => self.play_two::<V, W>(cells.as_slice(), first, second),
        }
    }

    fn play_allowed<V: Value, W: Watcher + Display + Drop>(
        &self,
        first: W,
        second: W,
    ) -> Result<String, AllocError> {
        match self.script.watch.allowance {
            None => self.play_rounds::<V, W>(first, second),
            Some(left) => self.play_rounds::<V, Allowance<W>>(
                Allowance::new(left, first),
                Allowance::new(left, second),
            ),
        }
    }

    fn play_watched<V: Value>(&self) -> Result<String, AllocError> {
        let heap = self.heap;
        match self.script.watch.base {
            Base::Tally => self.play_allowed::<V, Tally>(Tally::new(), Tally::new()),
            Base::Roll { places } => {
                let length = lent(places, most_places(self.script.calls.as_slice()));
                let mut list = vec![in heap; 0usize; length]?;
                let mut other = vec![in heap; 0usize; length]?;
                self.play_allowed::<V, Roll>(Roll::new(&mut list), Roll::new(&mut other))
            }
        }
    }
}

impl<V, W> Seat<V, W> {
    // What the round told, with its watcher in these words.
    fn told<'a>(&'a self, watched: &'a str) -> Told<'a> {
        Told {
            answers: self.answers.as_slice(),
            watched,
        }
    }
}

// The text to print of a script.
pub fn play_script(heap: Global, script: &Script) -> Result<String, AllocError> {
    let playing = Playing { heap, script };
    match script.kind {
        ValueKind::Numbers => playing.play_watched::<Number>(),
        ValueKind::Sets => playing.play_watched::<Candidates>(),
    }
}
