// The candidates of a cell: a set of the digits 1 to 9. A set is plain, any number, and its low nine bits count.
ghost use Rattle.std.specs.Prelude.{◌≡◌, ◌%◌};
ghost use Rattle.value.specs.Candidates.{candidates};
ghost use Rattle.value.specs.Truth.{nonzero};
ghost use Rattle.std.proofs.Common.{rules};

use crate::digits::DigitSet;
use crate::kinds::Value;

#[derive(Clone, Copy)]
pub struct Candidates(pub u32);

impl Value for Candidates {
    ghost meaning = { λ x. x.0 % 512 };

    ghost literally = { λ n. n % 512 };

    ghost combined = { candidates };

    ghost holds = { nonzero };

    ghost beyond = { Prim.search rules };

    ghost truly = { Prim.search rules };

    fn literal(n: u32) -> Candidates {
        Candidates(DigitSet::from(n).into())
    }

    fn combine(op: u8, a: Candidates, b: Candidates) -> Candidates {
        let x = DigitSet::from(a.0);
        let y = DigitSet::from(b.0);
        let z = match op {
            0 => x | y,
            1 => x - y,
            2 => x & y,
            3 => x ^ y,
            4 => DigitSet::one_if(x.lies_within(y)),
            5 => DigitSet::one_if(x == y),
            6 => !(x | y),
            7 => x.smallest(),
            _ => DigitSet::from(0),
        };
        Candidates(z.into())
    }

    fn truth(self) -> bool {
        self.code() != 0
    }

    fn code(self) -> u32 {
        DigitSet::from(self.0).into()
    }
}

#[cfg(test)]
mod tests {
    use super::Candidates;
    use crate::kinds::Value;

    #[test]
    fn combines_sets(rt: HostRuntime) {
        let cases: [(u8, u32, u32, u32); 14] = [
            (0, 5, 6, 7),
            (0, 512, 1, 1),
            (1, 7, 2, 5),
            (2, 5, 6, 4),
            (3, 5, 6, 3),
            (4, 4, 6, 1),
            (4, 5, 6, 0),
            (5, 513, 1, 1),
            (5, 2, 1, 0),
            (6, 1, 256, 254),
            (7, 320, 0, 64),
            (7, 1024, 3, 0),
            (8, 5, 6, 0),
            (255, 5, 6, 0),
        ];
        for (op, a, b, expected) in cases {
            assert_eq!(rt;
                Candidates::combine(op, Candidates(a), Candidates(b)).code(),
                expected
            );
        }
    }

    #[test]
    fn only_nine_bits_are_true(rt: HostRuntime) {
        let cases: [(u32, bool); 4] = [(0, false), (512, false), (256, true), (513, true)];
        for (plain, expected) in cases {
            assert_eq!(rt; Candidates(plain).truth(), expected);
        }
    }

    // Of each of the 512 sets: the lowest of its nine bits, by trying them in order.
    #[test]
    fn smallest_of_every_set(rt: HostRuntime) {
        for set in 0..512u32 {
            let mut lowest = 0;
            for bit in [256, 128, 64, 32, 16, 8, 4, 2, 1] {
                if set & bit != 0 {
                    lowest = bit;
                }
            }
            let smallest = Candidates::combine(7, Candidates(set), Candidates(0)).code();
            assert_eq!(rt; smallest, lowest);
        }
    }
}
