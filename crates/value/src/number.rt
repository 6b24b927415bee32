// Numbers of 32 bits, which wrap around.
ghost use Rattle.std.specs.Prelude.{◌≡◌};
ghost use Rattle.value.specs.Arithmetic.{numbers, quotient_of};
ghost use Rattle.value.specs.Truth.{nonzero};
ghost use Rattle.std.proofs.Common.{rules};

use crate::kinds::Value;

#[derive(Clone, Copy)]
pub struct Number(pub u32);

impl Value for Number {
    ghost meaning = { λ x. x.0 };

    ghost literally = { λ n. n };

    ghost combined = { numbers };

    ghost holds = { nonzero };

    ghost beyond = { Prim.search rules };

    ghost truly = { Prim.search rules };

    fn literal(n: u32) -> Number {
        Number(n)
    }

    fn combine(op: u8, a: Number, b: Number) -> Number {
        let x = a.0;
        let y = b.0;
        Number(match op {
            0 => x.wrapping_add(y),
            1 => x.wrapping_sub(y),
            2 => x.wrapping_mul(y),
            3 => quotient(x, y),
            4 => u32::from(x < y),
            5 => u32::from(x == y),
            6 => x & y,
            7 => x | y,
            _ => 0,
        })
    }

    fn truth(self) -> bool {
        self.0 != 0
    }

    fn code(self) -> u32 {
        self.0
    }
}

// Rounded down; 0 for the divisor 0.
fn quotient(x: u32, y: u32) -> u32
    ensures { result ≡ quotient_of x y }
{
    if y == 0 { 0 } else { x / y }
}

#[cfg(test)]
mod tests {
    use super::Number;
    use crate::kinds::Value;

    #[test]
    fn combines_numbers(rt: HostRuntime) {
        let cases: [(u8, u32, u32, u32); 12] = [
            (0, 4294967295, 2, 1),
            (1, 1, 3, 4294967294),
            (2, 65536, 65537, 65536),
            (3, 17, 5, 3),
            (3, 17, 0, 0),
            (4, 2, 4294967295, 1),
            (4, 3, 3, 0),
            (5, 3, 3, 1),
            (6, 12, 10, 8),
            (7, 12, 10, 14),
            (8, 12, 10, 0),
            (255, 12, 10, 0),
        ];
        for (op, a, b, expected) in cases {
            assert_eq!(rt; Number::combine(op, Number(a), Number(b)).code(), expected);
        }
    }
}
