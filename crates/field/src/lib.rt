// The field of 256 elements, in which x^8 = x^7 + x^2 + x + 1. Sums are `^`; products are shifts and sums, with no table: of one byte, of those of an
// array, and of eight at once that stand in one number (`lanes`).
#![tactic(auto)]

mod lanes;

ghost use Rattle.std.specs.Prelude.{◌≡◌, ℕ, ◌<◌, length, get_or};
ghost use Rattle.field.specs.Field.{power, times};
ghost use Rattle.field.specs.EachByte.{times_each};
ghost use Rattle.field.specs.Raised.{raised};

// Each of eight bytes, times the byte a.
pub fn times_each(bytes: u64, a: u8) -> u64
    ensures { result ≡ times_each bytes a }
{
    lanes::multiplied(bytes, a)
}

// The product of two bytes. It stays in bytes, so that a loop over an array that calls it becomes sixteen lanes.
pub fn product(a: u8, b: u8) -> u8
    ensures { result ≡ times a b }
{
    lanes::multiplied(b, a)
}

// The products of 16 pairs of bytes. A loop, which becomes sixteen lanes: by `array::from_fn` and `map` this and `scaled` took 1,660 instructions, not 235.
pub fn products(a: [u8; 16], b: [u8; 16]) -> [u8; 16]
    ensures { (length result ≡ 16) × ((i : ℕ) → i < 16 → get_or result i 0 ≡ times (get_or a i 0) (get_or b i 0)) }
{
    let mut out = [0u8; 16];
    for i in 0..16 {
        out[i] = product(a[i], b[i]);
    }
    out
}

// A byte times each of 16.
pub fn scaled(factor: u8, bytes: [u8; 16]) -> [u8; 16]
    ensures { (length result ≡ 16) × ((i : ℕ) → i < 16 → get_or result i 0 ≡ times factor (get_or bytes i 0)) }
{
    products([factor; 16], bytes)
}

// A byte to a power, bit by bit of the exponent. It is halved, so no `for` counts it.
pub fn raised_to(byte: u8, exponent: usize) -> u8
    ensures { result ≡ raised byte exponent }
{
    let mut result: u8 = 1;
    let mut square = byte;
    let mut left = exponent;
    while 0 < left {
        if left % 2 == 1 {
            result = product(square, result);
        }
        square = product(square, square);
        left = left / 2;
    }
    result
}

// The power of 2 with an exponent: each is twice the one before.
pub fn power_of(exponent: usize) -> u8
    ensures { result ≡ power exponent }
{
    let mut power = 1;
    for _ in 0..exponent {
        power = product(2, power);
    }
    power
}
