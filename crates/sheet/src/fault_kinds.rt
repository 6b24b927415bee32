// What a fault owes: the number of the rule that is broken, the place where, and the part of the work in which it was
// found.
ghost use Rattle.std.specs.Prelude.{◌≡◌, ℕ, ◌<◌, ◌≤◌};
ghost use Rattle.sheet.specs.declared.faults.Layer.{Layer};

use crate::faults::Layer;

pub trait Fault: Copy {
    ghost numbered: { Self → ℕ };

    ghost placed: { Self → ℕ };

    ghost found_in: { Self → Layer };

    fn number(&self) -> u32
        ensures { result ≡ numbered self.now };

    fn place(&self) -> usize
        ensures { result ≡ placed self.now };

    fn layer(&self) -> Layer
        ensures { result ≡ found_in self.now };

    // The rules have the numbers 1 to 14.
    ghost counted: { (f : Self) → (0 < numbered f) × (numbered f ≤ 14) };
}
