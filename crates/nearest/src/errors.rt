// The errors at known places: with all other places taken out of the sums, the first sum is the error times a known number.
ghost use Rattle.std.specs.Prelude.{◌≡◌, [], ℕ, ◌<◌, ◌≤◌, ◌+◌, length, take, get_or};
ghost use Rattle.std.specs.Int.Bits.{bit_xor};
ghost use Rattle.field.specs.Field.{times};
ghost use Rattle.nearest.specs.Search.{sums_of, error_at, fix_all, Falling};

use crate::places::Places;
use crate::sums::sums_with;

// The sums when the place with a number is taken out: 15 of them, and the last byte is none. By an index: each is made of its own and of the next.
fn sums_without(sums: [u8; 16], number: u8) -> [u8; 16]
    ensures { (i : ℕ) → i < 15 → get_or result i 0 ≡ bit_xor (get_or sums (i + 1) 0) (times number (get_or sums i 0)) }
{
    let products = field::scaled(number, sums);
    let mut out = sums;
    for i in 0..15 {
        out[i] = sums[i + 1] ^ products[i];
    }
    out
}

// The error at the place with a number, given the numbers of the other places that may be wrong.
fn error_at(sums: [u8; 16], number: u8, others: &[u8]) -> u8
    requires { length others.now ≤ 7 }
    ensures { result ≡ error_at sums number others.now }
{
    let mut left = sums;
    let mut divisor = field::raised_to(number, 120);
    for other in others {
        left = sums_without(left, *other);
        divisor = field::product(number ^ *other, divisor);
    }
    field::product(left[0], field::raised_to(divisor, 254))
}

// A word and its sums.
#[derive(Clone, Copy)]
pub struct Fixed {
    pub word: [u8; 255],
    pub sums: [u8; 16],
}

// The word with its wrong places repaired, each by its index, which tells the others. Its sums are followed, so that the check at the end needs no division.
pub fn fix_all(own: [u8; 255], sums: [u8; 16], wrong: &Places) -> Fixed
    requires { (sums ≡ sums_of own) × Falling 255 (take wrong.now.count wrong.now.at) }
    ensures { (result.word ≡ fix_all sums [] (take wrong.now.count wrong.now.at) own) × (result.sums ≡ sums_of result.word) }
{
    let mut fixed = Fixed { word: own, sums };
    for i in 0..wrong.count {
        let number = wrong.numbers[i];
        let others = wrong.others(i);
        let error = error_at(sums, number, &others[..wrong.count - 1]);
        fixed.sums = sums_with(fixed.sums, error, number);
        fixed.word[254 - wrong.at[i]] ^= error;
    }
    fixed
}
