// What a run of a sheet comes to.
ghost use Rattle.std.specs.Prelude.{◌≡◌, map, Some};
ghost use Rattle.run.specs.Judging.{verdict_by, path_verdict};
ghost use Rattle.run.specs.Machine.{state_of};
ghost use Rattle.run.specs.Values.{kind_of};
ghost use Rattle.run.specs.Words.{verdict_text};

use crate::cells::cell;
use crate::track::Track;
use std::fmt;
use value::Value;

#[derive(Clone, Copy)]
pub enum Verdict {
    // The verdict cell ends true.
    Right,
    // It ends false.
    Wrong,
    // The run broke at the loop of this line.
    Void { line: usize },
}

impl fmt::Display for Verdict {
    ghost output = { λ v. Some (verdict_text v) };

    fn fmt<W: fmt::Write>(&self, f: &mut fmt::Formatter<W>) -> fmt::Result {
        match *self {
            Verdict::Right => f.write_str("right"),
            Verdict::Wrong => f.write_str("wrong"),
            Verdict::Void { line } => write!(f, "void at {line}"),
        }
    }
}

// Void if a line is blamed, else by the verdict cell.
pub(crate) fn verdict_in<V: Value>(cells: &[V], verdict: usize, blamed: Option<usize>) -> Verdict
    ensures { result ≡ verdict_by (kind_of V.Value) verdict (map V.Value.meaning cells.now) blamed }
{
    match blamed {
        Some(line) => Verdict::Void { line },
        None => {
            if cell(cells, verdict).truth() {
                Verdict::Right
            } else {
                Verdict::Wrong
            }
        }
    }
}

// What a run of the one path that is over comes to. A latch comes before a break.
pub fn path_verdict<V: Value>(track: &Track, cells: &[V], verdict: usize) -> Verdict
    ensures { result ≡ path_verdict (kind_of V.Value) verdict (state_of V.Value track.now cells.now) }
{
    verdict_in(cells, verdict, track.latch.or(track.broken))
}
