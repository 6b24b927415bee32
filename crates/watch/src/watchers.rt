// What a watcher owes. It is offered a place and accepts or declines; what it means and the place alone say which.
ghost use Rattle.std.specs.Prelude.{◌≡◌, ℕ, Bool, if◌then◌else◌};

pub trait Watcher {
    // What a watcher means: all that counts of it.
    ghost Meaning: { Type 0 };

    ghost meaning: { Self → Meaning };

    // Whether a watcher of this meaning accepts this place.
    ghost accepts: { Meaning → ℕ → Bool };

    // What the meaning becomes when it accepts.
    ghost becomes: { Meaning → ℕ → Meaning };

    // What a watcher holds on loan, which an offer leaves in its hands. Each call that lends a watcher on says so too: no
    // type says what holds of a value at two moments.
    ghost Loan: { Type 0 };

    ghost loan: { Self → Loan };

    // Answers whether the place was accepted. Declining leaves the meaning as it was.
    fn offer(&mut self, place: usize) -> bool
        ensures answer { result ≡ accepts (meaning self.old) place }
        ensures after { meaning self.new ≡ (if result then becomes (meaning self.old) place else meaning self.old) }
        ensures same { loan self.new ≡ loan self.old };
}
