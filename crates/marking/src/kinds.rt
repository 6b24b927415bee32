// Kinds of marks: what a mark can say of a cell, and how two marks are joined.
ghost use Rattle.std.specs.Prelude.{◌≡◌, ℕ, ◌^◌, ◌<◌, ◌≤◌, Bool, true, false, ◌||◌, ◌≢◌, if◌then◌else◌};
ghost use Rattle.marking.specs.Rules.{AtLeast};
ghost use Rattle.std.proofs.Common.{rules};

pub trait Mark: Copy {
    // The mark of a cell that nothing marks.
    ghost unmarked: { Self };

    // The mark that a marked cell has of itself.
    ghost owned: { ℕ → Self };

    ghost joined: { Self → Self → Self };

    // How high a mark stands, and the height that none passes.
    ghost rank: { Self → ℕ };

    ghost height: { ℕ };

    fn none() -> Self
        ensures { result ≡ unmarked };

    fn own(cell: u8) -> Self
        ensures { result ≡ owned cell };

    fn join(self, other: Self) -> Self
        ensures { result ≡ joined self other };

    // Whether joining `other` to this mark adds nothing to it.
    fn at_least(self, other: Self) -> bool
        ensures yes { result ≡ true → AtLeast joined self other }
        ensures no { result ≡ false → AtLeast joined self other → ⊥ };

    ghost assoc: { (x y z : Self) → joined (joined x y) z ≡ joined x (joined y z) };

    ghost comm: { (x y : Self) → joined x y ≡ joined y x };

    ghost idem: { (x : Self) → joined x x ≡ x };

    ghost neutral: { (x : Self) → joined unmarked x ≡ x };

    // A join that differs from its left part stands higher.
    ghost rises: { (x y : Self) → joined x y ≢ x → rank x < rank (joined x y) };

    ghost tops: { (x : Self) → rank x ≤ height };

    ghost low: { height < 2 ^ 32 };
}

// Marked or not.
impl Mark for bool {
    ghost unmarked = { false };

    ghost owned = { λ _. true };

    ghost joined = { ◌||◌ };

    ghost rank = { λ x. (if x then 1 else 0) };

    ghost height = { 1 };

    ghost assoc = { Prim.search rules };

    ghost comm = { Prim.search rules };

    ghost idem = { Prim.search rules };

    ghost neutral = { Prim.search rules };

    ghost rises = { Prim.search rules };

    ghost tops = { Prim.search rules };

    ghost low = { Prim.search rules };

    fn none() -> bool {
        false
    }

    fn own(cell: u8) -> bool {
        true
    }

    fn join(self, other: bool) -> bool {
        self || other
    }

    fn at_least(self, other: bool) -> bool {
        self || !other
    }
}
