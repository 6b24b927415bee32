// Lets so many places through to the watcher below it.
ghost use Rattle.std.specs.Prelude.{◌≡◌, ℕ, ◌-◌, ◌&&◌, nat_lt, option_map};
ghost use Rattle.watch.specs.Texts.{allowance_text};

use crate::watchers::Watcher;
use std::fmt;

#[derive(Drop)]
pub struct Allowance<W> {
    pub left: u32,
    pub below: W,
}

impl<W: Watcher> Allowance<W> {
    pub fn new(left: u32, below: W) -> Allowance<W>
        ensures allowed { result.left ≡ left }
        ensures over { result.below ≡ below }
    {
        Allowance { left, below }
    }
}

impl<W: Watcher> Watcher for Allowance<W> {
    // How many places it still allows, and what the watcher below means.
    ghost Meaning = { ℕ × W.Watcher.Meaning };

    ghost meaning = { λ s. (s.left, W.Watcher.meaning s.below) };

    // It declines exactly when it allows no more or the watcher below declines.
    ghost accepts = { λ m place. nat_lt 0 m.0 && W.Watcher.accepts m.1 place };

    // Only a place that both accept is taken off what is left.
    ghost becomes = { λ m place. (m.0 - 1, W.Watcher.becomes m.1 place) };

    // It holds what the watcher below holds.
    ghost Loan = { W.Watcher.Loan };

    ghost loan = { λ s. W.Watcher.loan s.below };

    fn offer(&mut self, place: usize) -> bool {
        if self.left == 0 {
            return false;
        }
        if self.below.offer(place) {
            self.left -= 1;
            true
        } else {
            false
        }
    }
}

impl<W: fmt::Display> fmt::Display for Allowance<W> {
    ghost output = { λ s. option_map (allowance_text s.left) (W.Display.output s.below) };

    fn fmt<F: fmt::Write>(&self, f: &mut fmt::Formatter<F>) -> fmt::Result {
        let left = self.left;
        write!(f, "allowance {left}, ")?;
        self.below.fmt(f)
    }
}
