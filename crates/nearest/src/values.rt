// What the sums and the search for places share: numbers of which each is a multiple of the one before, and the values of a polynomial at many numbers at
// once. Arrays of a fixed size, so that the loops become lanes.
ghost use Rattle.std.specs.Prelude.{◌≡◌, ℕ, ◌<◌, get_or};
ghost use Rattle.std.specs.Int.Bits.{bit_xor};
ghost use Rattle.field.specs.Field.{times};
ghost use Rattle.field.specs.Raised.{raised};
ghost use Rattle.nearest.specs.Search.{value_at};

// N numbers: the first, and each the ratio times the one before.
pub fn progression<const N: usize>(first: u8, ratio: u8) -> [u8; N]
    ensures { (i : ℕ) → i < N → get_or result i 0 ≡ times first (raised ratio i) }
{
    let mut numbers = [0u8; N];
    let mut next = first;
    for number in numbers.iter_mut() {
        *number = next;
        next = field::product(ratio, next);
    }
    numbers
}

// A step of Horner's rule at N numbers, from the highest power down.
fn step<const N: usize>(numbers: [u8; N], values: [u8; N], coefficient: u8) -> [u8; N]
    ensures { (i : ℕ) → i < N → get_or result i 0 ≡ bit_xor coefficient (times (get_or numbers.entry i 0) (get_or values.entry i 0)) }
{
    // In a generic function the check learns nothing of an array from the closure that `from_fn` calls, so this is a loop.
    let mut out = [0u8; N];
    for i in 0..N {
        out[i] = coefficient ^ field::product(numbers[i], values[i]);
    }
    out
}

// The values at N numbers of a polynomial, its coefficients from the lowest power up.
pub fn values_at<const N: usize>(numbers: [u8; N], polynomial: &[u8]) -> [u8; N]
    ensures { (i : ℕ) → i < N → get_or result i 0 ≡ value_at (get_or numbers.entry i 0) polynomial.now }
{
    let mut values = [0u8; N];
    for coefficient in polynomial.iter().rev() {
        values = step(numbers, values, *coefficient);
    }
    values
}
