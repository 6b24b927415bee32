// The headings of a text: what is played, over which values, and with what.
ghost use Rattle.std.specs.Prelude.{◌≡◌, ◌≢◌, ◌+◌, Some, None, Err, IfOk, OnOk, OnErr, IsTrue};
ghost use Rattle.script.specs.Headings.{heading_name, count_refused, kind_name, missing_heading, is_full, lines_of};
ghost use Rattle.script.specs.declared.headings.Heading.TheVariants.{Cells};
ghost use Rattle.script.specs.declared.faults.Expected.TheVariants.{NoMore};
ghost use Rattle.script.specs.declared.faults.LineFault.TheVariants.{Unlike};

use crate::faults::{Expected, LineFault};
use crate::words::{Words, byte, number};
use std::alloc::Global;
use std::fmt;
use std::str::FromStr;

#[derive(Clone, Copy, Debug)]
pub enum Heading {
    Sheet,
    Kind,
    Tries,
    Cells,
    Watch,
    Tables,
    Working,
    Answers,
}

impl FromStr for Heading {
    ghost use Rattle.script.specs.declared.headings.Heading.{Heading};

    type Err = Expected;

    // The heading of this name, and an error only where no heading has it.
    ghost from_str_gives = { λ word r. IfOk r (λ h. heading_name h ≡ word) × OnErr r ((h : Heading) → heading_name h ≢ word) };

    fn from_str(word: &str) -> Result<Heading, Expected> {
        match word {
            "sheet" => Ok(Heading::Sheet),
            "kind" => Ok(Heading::Kind),
            "tries" => Ok(Heading::Tries),
            "cells" => Ok(Heading::Cells),
            "watch" => Ok(Heading::Watch),
            "tables" => Ok(Heading::Tables),
            "working" => Ok(Heading::Working),
            "answers" => Ok(Heading::Answers),
            _ => Err(Expected::Line),
        }
    }
}

impl fmt::Display for Heading {
    ghost output = { λ h. Some (heading_name h) };

    fn fmt<W: fmt::Write>(&self, f: &mut fmt::Formatter<W>) -> fmt::Result {
        f.write_str(self.name())
    }
}

impl Heading {
    // Its name, as it stands in the program: it cannot fail, as printing can, so it stands beside `Display`.
    pub fn name(self) -> &'static str
        ensures { result.now ≡ heading_name self }
    {
        match self {
            Heading::Sheet => "sheet",
            Heading::Kind => "kind",
            Heading::Tries => "tries",
            Heading::Cells => "cells",
            Heading::Watch => "watch",
            Heading::Tables => "tables",
            Heading::Working => "working",
            Heading::Answers => "answers",
        }
    }

    // Which line of this heading is one too many: a word of the program, which cannot fail, as printing can.
    pub fn count_refused(self) -> &'static str
        ensures { result.now ≡ count_refused self }
    {
        match self {
            Heading::Cells => "third",
            _ => "second",
        }
    }
}

#[derive(Clone, Copy)]
pub enum ValueKind {
    Numbers,
    Sets,
}

impl FromStr for ValueKind {
    ghost use Rattle.script.specs.declared.headings.ValueKind.{ValueKind};

    type Err = Expected;

    ghost from_str_gives = { λ word r. IfOk r (λ k. kind_name k ≡ word) × OnErr r ((k : ValueKind) → kind_name k ≢ word) };

    fn from_str(word: &str) -> Result<ValueKind, Expected> {
        match word {
            "numbers" => Ok(ValueKind::Numbers),
            "sets" => Ok(ValueKind::Sets),
            _ => Err(Expected::Kind),
        }
    }
}

// A watcher that stands over no other.
#[derive(Clone, Copy)]
pub enum Base {
    Tally,
    Roll { places: u32 },
}

#[derive(Clone, Copy)]
pub struct Watch {
    pub allowance: Option<u32>,
    pub base: Base,
}

impl Watch {
    fn read(words: &mut Words) -> Result<Watch, Expected> {
        match words.word() {
            "allowance" => {
                let left = words.number()?;
                let word = words.word();
                Ok(Watch {
                    allowance: Some(left),
                    base: Base::read(word, words, Expected::Below)?,
                })
            }
            word => Ok(Watch {
                allowance: None,
                base: Base::read(word, words, Expected::Watcher)?,
            }),
        }
    }
}

impl Base {
    // The watcher that this word and those after it name; where they name none, `otherwise` was expected.
    fn read(word: &str, words: &mut Words, otherwise: Expected) -> Result<Base, Expected> {
        match word {
            "tally" => Ok(Base::Tally),
            "roll" => Ok(Base::Roll {
                places: words.number()?,
            }),
            _ => Err(otherwise),
        }
    }
}

// The lengths of the tables that a round is lent.
#[derive(Clone, Copy)]
pub struct Lengths {
    pub lines: u32,
    pub marks: u32,
    pub steps: u32,
}

impl Lengths {
    fn read(words: &mut Words) -> Result<Lengths, Expected> {
        Ok(Lengths {
            lines: words.number()?,
            marks: words.number()?,
            steps: words.number()?,
        })
    }
}

// The headings read so far.
#[derive(Default, Drop)]
pub struct Headings {
    pub sheet: Option<Vec<u8>>,
    pub kind: Option<ValueKind>,
    pub tries: Option<u32>,
    pub first: Option<Vec<u32>>,
    pub second: Option<Vec<u32>>,
    pub watch: Option<Watch>,
    pub tables: Option<Lengths>,
    pub working: Option<u32>,
    pub answers: Option<u32>,
}

impl Headings {
    // The first heading that a text owes and that is not there.
    pub fn missing(&self) -> Option<Heading>
        ensures { result ≡ missing_heading self.now }
    {
        if self.sheet.is_none() {
            Some(Heading::Sheet)
        } else if self.kind.is_none() {
            Some(Heading::Kind)
        } else if self.tries.is_none() {
            Some(Heading::Tries)
        } else if self.first.is_none() {
            Some(Heading::Cells)
        } else if self.watch.is_none() {
            Some(Heading::Watch)
        } else {
            None
        }
    }

    // Whether another line of this heading is one too many.
    fn is_full(&self, heading: Heading) -> bool
        ensures { result ≡ is_full self.now heading }
    {
        match heading {
            Heading::Sheet => self.sheet.is_some(),
            Heading::Kind => self.kind.is_some(),
            Heading::Tries => self.tries.is_some(),
            Heading::Cells => self.second.is_some(),
            Heading::Watch => self.watch.is_some(),
            Heading::Tables => self.tables.is_some(),
            Heading::Working => self.working.is_some(),
            Heading::Answers => self.answers.is_some(),
        }
    }

    fn add_cells(&mut self, cells: Vec<u32>)
        requires { self.old.second ≡ None }
        ensures lines { lines_of self.new Cells ≡ lines_of self.old Cells + 1 }
        ensures others { (h : Heading) → h ≢ Cells → lines_of self.new h ≡ lines_of self.old h }
    {
        if self.first.is_none() {
            self.first = Some(cells);
        } else {
            self.second = Some(cells);
        }
    }

    // Takes a line of this heading, by the words after its name.
    pub fn add(
        &mut self,
        heap: Global,
        heading: Heading,
        words: &mut Words,
    ) -> Result<(), LineFault>
        ensures full { IsTrue (is_full self.old heading) → result ≡ Err (Unlike (NoMore heading)) }
        ensures lines { OnOk result (lines_of self.new heading ≡ lines_of self.old heading + 1) }
        ensures others { OnOk result ((h : Heading) → h ≢ heading → lines_of self.new h ≡ lines_of self.old h) }
    {
        if self.is_full(heading) {
            return Err(LineFault::Unlike(Expected::NoMore(heading)));
        }
        match heading {
            Heading::Sheet => self.sheet = Some(words.all(heap, byte)?),
            Heading::Kind => self.kind = Some(words.word().parse::<ValueKind>()?),
            Heading::Tries => self.tries = Some(words.number()?),
            Heading::Cells => self.add_cells(words.all(heap, number)?),
            Heading::Watch => self.watch = Some(Watch::read(words)?),
            Heading::Tables => self.tables = Some(Lengths::read(words)?),
            Heading::Working => self.working = Some(words.number()?),
            Heading::Answers => self.answers = Some(words.number()?),
        }
        Ok(words.end()?)
    }
}
