// The scrambler of a frame. Its bits are defined one by one (specs/Scrambler.antt) and made 64 at a time (levels.rt); crate plain_scrambler makes them one by
// one, as the definition has them.
#![tactic(auto)]

pub mod bits;
mod levels;
mod sums;

ghost use Rattle.std.specs.Prelude.{◌≡◌, ◌≤◌, length};
ghost use Rattle.scrambler.specs.Scrambler.{taps_allowed, scrambled};
ghost use Rattle.scrambler.specs.Keys.{Added};

use sums::Recurrence;

// Whether a number can be the taps: 25 of them, tap 0 set.
pub fn are_taps(taps: u32) -> bool
    ensures { result ≡ taps_allowed taps }
{
    taps < 0x2000000 && taps % 2 == 1
}

// Adds the scrambler's bits, begun anew, to the bytes. Doing it twice gives the bytes back.
pub fn scramble(taps: u32, bytes: &mut [u8])
    ensures { bytes.new ≡ scrambled taps bytes.old }
{
    let recurrence = Recurrence::of(taps);
    let mut words = levels::first_words(&recurrence);
    // A stretch of 400 bytes takes 50 words; the next 50 are made only where more bytes follow. The last stretch may be shorter, and stands by itself: so the
    // compiler knows the length of all others.
    let last = bytes.len().saturating_sub(1) / 400 * 400;
    for at in (0..last).step_by(400) {
        add_words(&words, &mut bytes[at..at + 400]);
        levels::extend::<2>(&recurrence, &mut words);
        levels::move_on(&mut words);
    }
    add_words(&words, &mut bytes[last..]);
}

// Adds the first 50 of these words of the key to at most 400 bytes.
fn add_words(words: &[u64; 100], bytes: &mut [u8])
    requires { length bytes.old ≤ 400 }
    ensures { Added words.now bytes.old bytes.new }
{
    let mut key = [0u8; 400];
    lent::numbers::write_numbers(&mut key, &words[..50]);
    // The key by an index, since of bytes that went through a `zip` a proof knows nothing afterwards (tried).
    for (i, byte) in bytes.iter_mut().enumerate() {
        *byte ^= key[i];
    }
}
