// What a round answers.
ghost use Rattle.std.specs.Prelude.{◌≡◌, Some};
ghost use Rattle.protocol.specs.Calls.{score_of};
ghost use Rattle.protocol.specs.Numbers.{ending_number, ending_line, score_number, walk_numbers, refusal_of, numbers_of};
ghost use Rattle.protocol.specs.Texts.{score_text, ending_text, walk_text, answer_text};

use crate::refusals::Refusal;
use run::Verdict;
use sheet::{Fault, Refused};
use std::fmt;

// What a run of a sheet comes to, as it is told.
#[derive(Clone, Copy, PartialEq, Debug)]
pub enum Score {
    Right,
    Wrong,
    Void,
}

// How an advance ends.
#[derive(Clone, Copy, PartialEq, Debug)]
pub enum Ending {
    // The steps asked for are taken.
    Paused,
    // No step is left.
    Ended,
    // The run broke at the loop of this line.
    Broken { line: usize },
    // The watcher declined a place.
    Stopped,
}

// What an advance did: the steps taken, and how it ended.
#[derive(Clone, Copy, PartialEq, Debug)]
pub struct Advanced {
    pub steps: u32,
    pub ending: Ending,
}

#[derive(Clone, Copy, PartialEq, Debug)]
pub enum Answer {
    // The call is done, and has nothing to tell.
    Done,
    // The run is begun; so many tries are left.
    Left { tries: u32 },
    Walked { advanced: Advanced },
    Shown { code: u32 },
    Scored { score: Score },
    Refused { refusal: Refusal },
}

impl From<Verdict> for Score {
    ghost from_gives = { λ v s. s ≡ score_of v };

    fn from(verdict: Verdict) -> Score {
        match verdict {
            Verdict::Right => Score::Right,
            Verdict::Wrong => Score::Wrong,
            Verdict::Void { line: _ } => Score::Void,
        }
    }
}

impl Score {
    // Its number among the three that an answer tells to callers that take numbers alone.
    pub fn number(&self) -> usize
        ensures { result ≡ score_number self.now }
    {
        match *self {
            Score::Wrong => 0,
            Score::Right => 1,
            Score::Void => 2,
        }
    }
}

impl Ending {
    // Its number among those three.
    pub fn number(&self) -> usize
        ensures { result ≡ ending_number self.now }
    {
        match *self {
            Ending::Paused => 0,
            Ending::Ended => 1,
            Ending::Broken { line: _ } => 2,
            Ending::Stopped => 3,
        }
    }

    // The broken loop's line, else 0 and no option: callers may take numbers alone.
    pub fn line(&self) -> usize
        ensures { result ≡ ending_line self.now }
    {
        match *self {
            Ending::Broken { line } => line,
            _ => 0,
        }
    }
}

impl Advanced {
    // The steps taken, the ending's number, and the broken loop's line.
    pub fn numbers(&self) -> (usize, usize, usize)
        ensures { result ≡ walk_numbers self.now }
    {
        (
            self.steps as usize,
            self.ending.number(),
            self.ending.line(),
        )
    }
}

impl Answer {
    // The refusal's number; 0 and no option if the call was accepted: callers may take numbers alone.
    pub fn refusal(&self) -> u32
        ensures { result ≡ refusal_of self.now }
    {
        match *self {
            Answer::Refused { refusal } => refusal.number(),
            _ => 0,
        }
    }

    // The three numbers that the answer tells, 0 where it tells fewer.
    pub fn numbers(&self) -> (usize, usize, usize)
        ensures { result ≡ numbers_of self.now }
    {
        match *self {
            Answer::Done => (0, 0, 0),
            Answer::Left { tries } => (tries as usize, 0, 0),
            Answer::Walked { advanced } => advanced.numbers(),
            Answer::Shown { code } => (code as usize, 0, 0),
            Answer::Scored { score } => (score.number(), 0, 0),
            Answer::Refused { refusal } => (refusal.place(), 0, 0),
        }
    }
}

impl fmt::Display for Score {
    ghost output = { λ s. Some (score_text s) };

    fn fmt<W: fmt::Write>(&self, f: &mut fmt::Formatter<W>) -> fmt::Result {
        f.write_str(match *self {
            Score::Right => "right",
            Score::Wrong => "wrong",
            Score::Void => "void",
        })
    }
}

impl fmt::Display for Ending {
    ghost output = { λ e. Some (ending_text e) };

    fn fmt<W: fmt::Write>(&self, f: &mut fmt::Formatter<W>) -> fmt::Result {
        match *self {
            Ending::Paused => f.write_str("paused"),
            Ending::Ended => f.write_str("ended"),
            Ending::Broken { line } => write!(f, "broken at line {line}"),
            Ending::Stopped => f.write_str("stopped"),
        }
    }
}

impl fmt::Display for Advanced {
    ghost output = { λ r. Some (walk_text r.steps r.ending) };

    fn fmt<W: fmt::Write>(&self, f: &mut fmt::Formatter<W>) -> fmt::Result {
        let Advanced { steps, ending } = *self;
        write!(f, "{steps} steps, {ending}")
    }
}

impl fmt::Display for Answer {
    ghost output = { λ a. Some (answer_text a) };

    fn fmt<W: fmt::Write>(&self, f: &mut fmt::Formatter<W>) -> fmt::Result {
        match *self {
            Answer::Done => f.write_str("done"),
            Answer::Left { tries } => write!(f, "{tries} tries left"),
            Answer::Walked { advanced } => advanced.fmt(f),
            Answer::Shown { code } => write!(f, "{code}"),
            Answer::Scored { score } => score.fmt(f),
            Answer::Refused { refusal } => Refused(refusal).fmt(f),
        }
    }
}
