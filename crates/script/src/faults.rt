// Why a text is not played.
ghost use Rattle.std.specs.Prelude.{◌≡◌, Some};
ghost use Rattle.script.specs.Faults.{expected_text, fault_text, script_fault_text, fault_at};
ghost use Rattle.script.specs.declared.faults.LineFault.TheVariants.{Memory as NoMemory, Unlike};
ghost use Rattle.script.specs.declared.faults.ScriptFault.TheVariants.{Memory};

use crate::headings::Heading;
use std::alloc::{AllocError, AllocFailed};
use std::error::Error;
use std::fmt;

// What should have stood in a line.
#[derive(Clone, Copy, Debug)]
pub enum Expected {
    // The text is not UTF-8.
    Text,
    // A line begins with an unknown word, before the first call.
    Line,
    // A line after the first call is none.
    Call,
    // The text has calls, or ends, and a heading that it owes is missing.
    Needed(Heading),
    // The heading was there already.
    NoMore(Heading),
    Number,
    Byte,
    Kind,
    Watcher,
    // The watcher under an allowance.
    Below,
    // A word too many.
    End,
}

impl fmt::Display for Expected {
    ghost output = { λ e. Some (expected_text e) };

    fn fmt<W: fmt::Write>(&self, f: &mut fmt::Formatter<W>) -> fmt::Result {
        match *self {
            Expected::Text => f.write_str("text in UTF-8"),
            Expected::Line => f.write_str("a heading or a call"),
            Expected::Call => f.write_str("a call"),
            Expected::Needed(heading) => write!(f, "a {heading} line"),
            Expected::NoMore(heading) => {
                let count = heading.count_refused();
                write!(f, "no {count} {heading} line")
            }
            Expected::Number => f.write_str("a number from 0 to 4294967295"),
            Expected::Byte => f.write_str("two hexadecimal digits"),
            Expected::Kind => f.write_str("numbers or sets"),
            Expected::Watcher => f.write_str("tally, roll or allowance"),
            Expected::Below => f.write_str("tally or roll"),
            Expected::End => f.write_str("the end of the line"),
        }
    }
}

// The first line, counted from 1, that cannot be read, and what should have stood there.
#[derive(Clone, Copy, Debug)]
pub struct TextFault {
    pub line: usize,
    pub expected: Expected,
}

impl fmt::Display for TextFault {
    ghost output = { λ e. Some (fault_text e.line e.expected) };

    fn fmt<W: fmt::Write>(&self, f: &mut fmt::Formatter<W>) -> fmt::Result {
        let TextFault { line, expected } = *self;
        write!(f, "line {line}: expected {expected}")
    }
}

#[derive(Clone, Copy, Debug)]
pub enum ScriptFault {
    Memory,
    Unreadable(TextFault),
}

impl fmt::Display for ScriptFault {
    ghost output = { λ e. Some (script_fault_text e) };

    fn fmt<W: fmt::Write>(&self, f: &mut fmt::Formatter<W>) -> fmt::Result {
        match *self {
            ScriptFault::Memory => f.write_str("not enough memory"),
            ScriptFault::Unreadable(fault) => fault.fmt(f),
        }
    }
}

impl Error for ScriptFault {}

impl From<AllocError> for ScriptFault {
    ghost from_gives = { λ _ e. e ≡ Memory };

    fn from(_e: AllocError) -> ScriptFault {
        ScriptFault::Memory
    }
}

// Why a line is not taken. What reads a line does not know its number, so `ScriptFault` is another enum.
#[derive(Clone, Copy)]
pub enum LineFault {
    Memory,
    Unlike(Expected),
}

impl LineFault {
    // The fault of a text whose line of this number is not taken.
    pub fn at(self, line: usize) -> ScriptFault
        ensures { result ≡ fault_at self line }
    {
        match self {
            LineFault::Memory => ScriptFault::Memory,
            LineFault::Unlike(expected) => ScriptFault::Unreadable(TextFault { line, expected }),
        }
    }
}

impl From<Expected> for LineFault {
    ghost from_gives = { λ expected e. e ≡ Unlike expected };

    fn from(expected: Expected) -> LineFault {
        LineFault::Unlike(expected)
    }
}

impl From<AllocError> for LineFault {
    ghost from_gives = { λ _ e. e ≡ NoMemory };

    fn from(_e: AllocError) -> LineFault {
        LineFault::Memory
    }
}

impl<T: Drop> From<AllocFailed<T>> for LineFault {
    ghost from_gives = { λ _ e. e ≡ NoMemory };

    fn from(_e: AllocFailed<T>) -> LineFault {
        LineFault::Memory
    }
}
