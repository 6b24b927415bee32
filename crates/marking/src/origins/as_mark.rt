// Sets of cells as a kind of marks, joined by union.
ghost use Rattle.std.specs.Prelude.{count_ones};
ghost use Rattle.std.proofs.lemmas.Nat.{ones-le, or_comm};
ghost use Rattle.marking.specs.Sets.{no_origins, own_origin, union};
ghost use Rattle.marking.specs.Unions.{same_set, or_assoc, ones_rise};
ghost use Rattle.std.specs.Int.Bits.{or_self};
ghost use Rattle.std.proofs.Common.{rules};

use super::{Origins, bit_of};
use crate::kinds::Mark;

impl Mark for Origins {
    ghost unmarked = { no_origins };

    ghost owned = { own_origin };

    ghost joined = { union };

    ghost rank = { λ x. count_ones x.members };

    ghost height = { 64 };

    ghost assoc = { λ x y z. same_set _ _ (or_assoc x.members y.members z.members) };

    ghost comm = { λ x y. same_set _ _ (or_comm x.members y.members) };

    ghost idem = { λ x. same_set _ _ (or_self x.members) };

    ghost neutral = { λ x. same_set _ _ (λ _. x.members) };

    ghost rises = { λ x y ne. ones_rise x.members y.members (λ e. ne (same_set _ _ e)) };

    ghost tops = { λ x. ones-le 64 x.members x.fits };

    ghost low = { Prim.search rules };

    fn none() -> Origins {
        Origins { members: 0 }
    }

    fn own(cell: u8) -> Origins {
        Origins {
            members: bit_of(cell),
        }
    }

    fn join(self, other: Origins) -> Origins {
        Origins {
            members: self.members | other.members,
        }
    }

    fn at_least(self, other: Origins) -> bool {
        self.join(other) == self
    }
}
