// The 16 sums of a word, its values at the roots of the generator. What division leaves has the same, and is shorter.
ghost use Rattle.std.specs.Prelude.{◌≡◌, ℕ, ◌<◌, ◌+◌, ◌*◌, get_or};
ghost use Rattle.std.specs.Int.Bits.{bit_xor};
ghost use Rattle.field.specs.Field.{times, power};
ghost use Rattle.reed_solomon.specs.Roots.{value};
ghost use Rattle.field.specs.Raised.{raised};

use crate::values;

// The values of 16 bytes, the highest power first, at the 16 roots: the first is 120, and each is 2^11, which is 173, times the one before.
pub fn sums_at(remainder: [u8; 16]) -> [u8; 16]
    ensures { (i : ℕ) → i < 16 → get_or result i 0 ≡ value (power (11 * (120 + i))) 0 remainder }
{
    let roots = values::progression(120, 173);
    let mut polynomial = remainder;
    polynomial.reverse();
    values::values_at(roots, &polynomial)
}

// The sums of a word when an error is added at the place with a number.
pub fn sums_with(sums: [u8; 16], error: u8, number: u8) -> [u8; 16]
    ensures { (i : ℕ) → i < 16 → get_or result i 0 ≡ bit_xor (get_or sums i 0) (times error (raised number (120 + i))) }
{
    let first = field::product(error, field::raised_to(number, 120));
    let terms: [u8; 16] = values::progression(first, number);
    std::array::from_fn(|i| sums[i] ^ terms[i])
}
