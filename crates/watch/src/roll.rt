// Writes the places, in order, into a list that its caller lends it.
ghost use Rattle.std.specs.Prelude.{◌≡◌, ℕ, ◌+◌, ◌<◌, List, [], ◌∷◌, ◌++◌, length, take, Some, nat_lt, slice_set};
ghost use Rattle.watch.specs.Texts.{roll_text};

use crate::watchers::Watcher;
use std::fmt;

// The places stand in the caller's list, since nothing here takes memory; `len` says how many of them are written.
#[derive(Drop)]
pub struct Roll<'a> {
    pub list: &'a mut [usize],
    pub len: usize,
}

impl<'a> Roll<'a> {
    // Nothing is written, and what will be is written into the caller's list.
    pub fn new(list: &'a mut [usize]) -> Roll<'a>
        ensures none { result.len ≡ 0 }
        ensures list { result.list.now ≡ list.old }
        ensures lent { result.list.ghost_name ≡ list.entry.ghost_name }
    {
        Roll { list, len: 0 }
    }

    // Whether another place fits.
    fn has_room(&self) -> bool
        ensures { result ≡ nat_lt self.now.len (length self.now.list.now) }
    {
        self.len < self.list.len()
    }

    // The places written.
    fn written(&self) -> &[usize]
        ensures { result.now ≡ take self.now.len self.now.list.now }
    {
        let count = self.len.min(self.list.len());
        &self.list[..count]
    }

    // Writes a place after the others.
    fn write(&mut self, place: usize)
        requires { self.old.len < length self.old.list.now }
        ensures list { self.new.list.now ≡ slice_set self.old.list.now self.old.len place }
        ensures len { self.new.len ≡ self.old.len + 1 }
        ensures same { self.new.list.ghost_name ≡ self.old.list.ghost_name }
    {
        self.list[self.len] = place;
        self.len += 1;
    }
}

impl<'a> Watcher for Roll<'a> {
    // The places written, and the length of the list.
    ghost Meaning = { List ℕ × ℕ };

    ghost meaning = { λ s. (take s.len s.list.now, length s.list.now) };

    // It declines only when the list is full.
    ghost accepts = { λ m _. nat_lt (length m.0) m.1 };

    ghost becomes = { λ m place. (m.0 ++ place ∷ [], m.1) };

    // It holds its caller's list.
    ghost Loan = { ℕ };

    ghost loan = { λ s. s.list.ghost_name };

    fn offer(&mut self, place: usize) -> bool {
        if self.has_room() {
            self.write(place);
            true
        } else {
            false
        }
    }
}

impl<'a> fmt::Display for Roll<'a> {
    ghost output = { λ s. Some (roll_text (take s.len s.list.now)) };

    fn fmt<W: fmt::Write>(&self, f: &mut fmt::Formatter<W>) -> fmt::Result {
        f.write_str("roll")?;
        for place in self.written() {
            write!(f, " {place}")?;
        }
        Ok(())
    }
}
