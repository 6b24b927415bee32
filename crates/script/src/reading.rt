// A text as what is to be played.
ghost use Rattle.std.specs.Prelude.{◌≡◌, ◌≤◌, ◌==◌, length, count_by, Err, OnOk};
ghost use Rattle.std.specs.Str.{IsUtf8};
ghost use Rattle.script.specs.Faults.{line_at, not_text};

use crate::faults::{Expected, LineFault, ScriptFault, TextFault};
use crate::headings::{Heading, Headings, Lengths, ValueKind, Watch};
use crate::words::{Words, joined};
use protocol::Call;
use std::alloc::Global;
use std::str::from_utf8;

// What is to be played. `words` has each call as it was written, which is how it is printed: beside `calls`, since rounds
// are played from a slice of calls.
#[derive(Drop)]
pub struct Script {
    pub sheet: Vec<u8>,
    pub kind: ValueKind,
    pub tries: u32,
    pub first: Vec<u32>,
    pub second: Option<Vec<u32>>,
    pub watch: Watch,
    pub tables: Option<Lengths>,
    pub working: Option<u32>,
    pub answers: Option<u32>,
    pub calls: Vec<Call>,
    pub words: Vec<String>,
}

// The lines read so far.
#[derive(Drop)]
struct Reading {
    headings: Headings,
    calls: Vec<Call>,
    words: Vec<String>,
}

// The call of a line; none if it begins with no call's word. Each word is matched where the numbers after it are read,
// since a list of the calls' words beside this match would be no plainer.
fn call_of(line: &str) -> Result<Option<Call>, Expected> {
    let mut words = Words::of(line);
    let call = match words.word() {
        "put" => Call::Put {
            cell: words.number()? as usize,
            number: words.number()?,
        },
        "start" => Call::Start,
        "advance" => Call::Advance {
            steps: words.number()?,
        },
        "look" => Call::Look {
            cell: words.number()? as usize,
        },
        "withdraw" => Call::Withdraw,
        "score" => Call::Score,
        _ => {
            return Ok(None);
        }
    };
    words.end()?;
    Ok(Some(call))
}

impl Reading {
    // What a line should have been that begins with no word that may stand there.
    fn expected_line(&self) -> Expected {
        if self.calls.is_empty() {
            Expected::Line
        } else {
            Expected::Call
        }
    }

    fn add_call(&mut self, heap: Global, line: &str) -> Result<(), LineFault> {
        let Some(call) = call_of(line)? else {
            return Err(LineFault::Unlike(self.expected_line()));
        };
        if let Some(heading) = self.headings.missing() {
            return Err(LineFault::Unlike(Expected::Needed(heading)));
        }
        self.calls.push(call)?;
        self.words.push(joined(heap, line)?)?;
        Ok(())
    }

    fn add(&mut self, heap: Global, line: &str) -> Result<(), LineFault> {
        let mut words = Words::of(line);
        let word = words.word();
        if word.is_empty() || word.starts_with('#') {
            return Ok(());
        }
        let Ok(heading) = word.parse::<Heading>() else {
            return self.add_call(heap, line);
        };
        if !self.calls.is_empty() {
            return Err(LineFault::Unlike(Expected::Call));
        }
        self.headings.add(heap, heading, &mut words)
    }

    // The whole text is read.
    fn finish(self) -> Result<Script, Expected> {
        let Reading {
            headings,
            calls,
            words,
        } = self;
        Ok(Script {
            sheet: headings.sheet.ok_or(Expected::Needed(Heading::Sheet))?,
            kind: headings.kind.ok_or(Expected::Needed(Heading::Kind))?,
            tries: headings.tries.ok_or(Expected::Needed(Heading::Tries))?,
            first: headings.first.ok_or(Expected::Needed(Heading::Cells))?,
            second: headings.second,
            watch: headings.watch.ok_or(Expected::Needed(Heading::Watch))?,
            tables: headings.tables,
            working: headings.working,
            answers: headings.answers,
            calls,
            words,
        })
    }
}

fn newlines(text: &[u8]) -> usize
    ensures count { result ≡ count_by (λ b. b == 10) text.now }
    ensures within { result ≤ length text.now }
{
    text.iter().filter(|byte| **byte == b'\n').count()
}

// The line, counted from 1, that this byte stands in.
fn line_of(text: &[u8], at: usize) -> usize
    ensures { result ≡ line_at text.now at }
{
    let before = at.min(text.len());
    newlines(&text[..before]) + 1
}

fn read_lines(heap: Global, text: &str) -> Result<Script, ScriptFault> {
    let mut reading = Reading {
        headings: Headings::default(),
        calls: Vec::new(heap),
        words: Vec::new(heap),
    };
    // The number of the line that was read last.
    let mut read: usize = 0;
    for (before, line) in text.lines().enumerate() {
        read = before.saturating_add(1);
        reading.add(heap, line).map_err(|fault| fault.at(read))?;
    }
    let end = read.saturating_add(1);
    reading
        .finish()
        .map_err(|expected| LineFault::Unlike(expected).at(end))
}

pub fn read_script(heap: Global, text: &[u8]) -> Result<Script, ScriptFault>
    ensures text { OnOk result (IsUtf8 text.now) }
    ensures no_text { ¬ (IsUtf8 text.now) → result ≡ Err (not_text text.now) }
{
    match from_utf8(text) {
        Ok(text) => read_lines(heap, text),
        Err(fault) => Err(ScriptFault::Unreadable(TextFault {
            line: line_of(text, fault.valid_up_to()),
            expected: Expected::Text,
        })),
    }
}
