// Sets of the digits 1 to 9, a bit a digit: the digit n counts 2^(n-1).
ghost use Rattle.std.specs.Prelude.{◌≡◌, ◌%◌, ◌<◌, slice_index};
ghost use Rattle.value.specs.Sets.{union_of, common, in_just_one, outside, without, within};
ghost use Rattle.value.specs.Smallest.{smallest_of, every_smallest};
ghost use Rattle.value.specs.Truth.{flag};

use crate::smallest::SMALLEST;
use std::ops::{BitAnd, BitOr, BitXor, Not, Sub};

#[derive(Clone, Copy, PartialEq, Eq)]
pub struct DigitSet {
    bits: u16,
    ghost nine: { bits < 512 },
}

// The set that the low nine bits make.
impl From<u32> for DigitSet {
    ghost from_gives = { λ plain set. set.bits ≡ plain % 512 };

    fn from(plain: u32) -> DigitSet {
        DigitSet {
            bits: (plain & 511) as u16,
        }
    }
}

impl From<DigitSet> for u32 {
    ghost from_gives = { λ set plain. plain ≡ set.bits };

    fn from(set: DigitSet) -> u32 {
        u32::from(set.bits)
    }
}

// The digits of either.
impl BitOr for DigitSet {
    type Output = DigitSet;

    ghost bitor_gives = { λ a b set. set.bits ≡ union_of a.bits b.bits };

    fn bitor(self, other: DigitSet) -> DigitSet {
        DigitSet {
            bits: self.bits | other.bits,
        }
    }
}

// The digits of both.
impl BitAnd for DigitSet {
    type Output = DigitSet;

    ghost bitand_gives = { λ a b set. set.bits ≡ common a.bits b.bits };

    fn bitand(self, other: DigitSet) -> DigitSet {
        DigitSet {
            bits: self.bits & other.bits,
        }
    }
}

// The digits of just one.
impl BitXor for DigitSet {
    type Output = DigitSet;

    ghost bitxor_gives = { λ a b set. set.bits ≡ in_just_one a.bits b.bits };

    fn bitxor(self, other: DigitSet) -> DigitSet {
        DigitSet {
            bits: self.bits ^ other.bits,
        }
    }
}

// The digits outside the set.
impl Not for DigitSet {
    type Output = DigitSet;

    ghost not_gives = { λ a set. set.bits ≡ outside a.bits };

    fn not(self) -> DigitSet {
        DigitSet {
            bits: 511 - self.bits,
        }
    }
}

// The digits of the one that are outside the other.
impl Sub for DigitSet {
    type Output = DigitSet;

    ghost sub_gives = { λ a b set. set.bits ≡ without a.bits b.bits };

    fn sub(self, other: DigitSet) -> DigitSet {
        self & !other
    }
}

impl DigitSet {
    // The set of the digit 1, or the empty set. The name says which, as no conversion would.
    pub fn one_if(yes: bool) -> DigitSet
        ensures { result.bits ≡ flag yes }
    {
        DigitSet {
            bits: u16::from(yes),
        }
    }

    pub fn smallest(self) -> DigitSet
        ensures { result.bits ≡ smallest_of self.bits }
    {
        DigitSet {
            bits: entry_of(self),
        }
    }

    pub fn lies_within(self, other: DigitSet) -> bool
        ensures { result ≡ within self.bits other.bits }
    {
        self & other == self
    }
}

// What the table has for the set.
fn entry_of(set: DigitSet) -> u16
    ensures { result ≡ slice_index every_smallest set.bits }
{
    SMALLEST[set.bits as usize]
}
