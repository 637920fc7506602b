// The scrambler in its plain form, a bit at a time as the definition goes: the code that a reader compares with the standard, and the trials run beside
// crate scrambler.
#![tactic(auto)]

ghost use Rattle.std.specs.Prelude.{◌≡◌};
ghost use Rattle.scrambler.specs.Scrambler.{scrambled};

use scrambler::bits;

// Adds the scrambler's bits, begun anew, to the bytes. Doing it twice gives the bytes back.
pub fn scramble(taps: u32, bytes: &mut [u8])
    ensures { bytes.new ≡ scrambled taps bytes.old }
{
    let mut stages = bits::FIRST_STAGES;
    for byte in bytes.iter_mut() {
        let key = bits::key_byte(taps, stages);
        *byte ^= key.byte;
        stages = key.stages;
    }
}
