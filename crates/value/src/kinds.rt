// What a kind of values owes. Each value means a whole number below 2^32, and what an operation gives depends on what its
// values mean alone.
ghost use Rattle.std.specs.Prelude.{◌≡◌, ℕ, ◌^◌, ◌<◌, Bool};
ghost use Rattle.value.specs.Truth.{nonzero};

pub trait Value: Copy {
    ghost meaning: { Self → ℕ };

    // What a literal of this number means.
    ghost literally: { ℕ → ℕ };

    // What an operation, by its number, makes of two meanings.
    ghost combined: { ℕ → ℕ → ℕ → ℕ };

    // Which meanings are true.
    ghost holds: { ℕ → Bool };

    fn literal(n: u32) -> Self
        ensures { meaning result ≡ literally n };

    // Any byte may come as an operation, and each kind gives its own meaning to it, so no enum names them.
    fn combine(op: u8, a: Self, b: Self) -> Self
        ensures { meaning result ≡ combined op (meaning a) (meaning b) };

    fn truth(self) -> bool
        ensures { result ≡ holds (meaning self) };

    // The number that the value means.
    fn code(self) -> u32
        ensures means { result ≡ meaning self }
        ensures fits { meaning self < 2 ^ 32 };

    // There are the operations 0 to 7: any other gives the literal 0.
    ghost beyond: { (op a b : ℕ) → 7 < op → combined op a b ≡ literally 0 };

    // A value is true unless it means 0.
    ghost truly: { (n : ℕ) → holds n ≡ nonzero n };
}
