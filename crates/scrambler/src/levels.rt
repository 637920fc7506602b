// The key in words of eight bytes. A recurrence over bits modulo 2 holds for every second of the numbers that follow it too, hence for numbers of 8, 16, 32
// and 64 bits of the key: 25 numbers of one width give 50, and two neighbours make one of twice the width.
ghost use Rattle.std.specs.Prelude.{ℕ, ◌*◌, ◌^◌, ◌≤◌, ◌<◌, get_or};
ghost use Rattle.scrambler.specs.Scrambler.{key_byte};
ghost use Rattle.scrambler.specs.Keys.{key_number, places_from, Holds, Extends, Paired, Moved};

use crate::bits;
use crate::sums::Recurrence;

// The first 25 bytes of the key, made bit by bit.
fn first_bytes(taps: u32) -> [u64; 100]
    ensures { Holds (key_byte taps) 25 result }
{
    let mut numbers = [0u64; 100];
    let mut stages = bits::FIRST_STAGES;
    for number in numbers[..25].iter_mut() {
        let key = bits::key_byte(taps, stages);
        *number = key.byte as u64;
        stages = key.stages;
    }
    numbers
}

// Of 25 N numbers, of which every N-th follows the recurrence, makes 50 N, N at a time. By an index, here and in `pair`: what is read and what is written stand
// in one array.
pub fn extend<const N: usize>(recurrence: &Recurrence, numbers: &mut [u64; 100])
    requires { 50 * N ≤ 100 }
    ensures { Extends N (places_from 25 0 recurrence.now.taps) numbers.old numbers.new }
{
    for i in 0..25 {
        let sums = recurrence.sums_of::<N>(&numbers[N * i..N * (i + 25)]);
        let at = N * (i + 25);
        numbers[at..at + N].copy_from_slice(&sums);
    }
}

// Of 50 numbers below a unit, makes 25 of twice their width.
fn pair(numbers: &mut [u64; 100], unit: u64)
    requires { ((i : ℕ) → i < 50 → get_or numbers.old i 0 < unit) × (unit ≤ 2 ^ 32) }
    ensures { Paired unit numbers.old numbers.new }
{
    for i in 0..25 {
        numbers[i] = numbers[1 + 2 * i] * unit + numbers[2 * i];
    }
}

// The first 50 words of the key.
pub fn first_words(recurrence: &Recurrence) -> [u64; 100]
    ensures { Holds (λ k. key_number recurrence.now.taps 8 (8 * k)) 50 result }
{
    let mut numbers = first_bytes(recurrence.taps);
    extend::<1>(recurrence, &mut numbers);
    pair(&mut numbers, 0x100);
    extend::<1>(recurrence, &mut numbers);
    pair(&mut numbers, 0x10000);
    extend::<1>(recurrence, &mut numbers);
    pair(&mut numbers, 0x100000000);
    extend::<1>(recurrence, &mut numbers);
    numbers
}

// The later 50 of 100 numbers become the first.
pub fn move_on(numbers: &mut [u64; 100])
    ensures { Moved numbers.old numbers.new }
{
    numbers.copy_within(50.., 0);
}
