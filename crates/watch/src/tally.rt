// Counts the places, and keeps the latest.
ghost use Rattle.std.specs.Prelude.{◌≡◌, ℕ, ◌+◌, Some, nat_lt};
ghost use Rattle.watch.specs.Texts.{tally_text};

use crate::watchers::Watcher;
use std::fmt;

#[derive(Clone, Copy, Debug, Default, PartialEq)]
pub struct Tally {
    pub count: u32,
    pub latest: usize,
}

impl Tally {
    // Nothing is counted.
    pub fn new() -> Tally
        ensures count { result.count ≡ 0 }
        ensures latest { result.latest ≡ 0 }
    {
        Tally::default()
    }
}

impl Watcher for Tally {
    // How many places were counted, and the latest.
    ghost Meaning = { ℕ × ℕ };

    ghost meaning = { λ t. (t.count, t.latest) };

    // It declines only at the largest count of 32 bits.
    ghost accepts = { λ m _. nat_lt m.0 4294967295 };

    ghost becomes = { λ m place. (m.0 + 1, place) };

    // It holds nothing on loan.
    ghost Loan = { Unit {0} };

    ghost loan = { λ _. tt };

    fn offer(&mut self, place: usize) -> bool {
        if self.count < u32::MAX {
            self.count += 1;
            self.latest = place;
            true
        } else {
            false
        }
    }
}

impl fmt::Display for Tally {
    ghost output = { λ t. Some (tally_text t.count t.latest) };

    fn fmt<W: fmt::Write>(&self, f: &mut fmt::Formatter<W>) -> fmt::Result {
        let count = self.count;
        let latest = self.latest;
        write!(f, "tally {count} latest {latest}")
    }
}
