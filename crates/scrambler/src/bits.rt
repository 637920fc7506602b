// The scrambler bit by bit: its 25 stages, and the bits that leave them.
ghost use Rattle.std.specs.Prelude.{◌≡◌, ◌<◌, ◌^◌};
ghost use Rattle.scrambler.specs.Scrambler.{next, after};
ghost use Rattle.scrambler.specs.Keys.{key};

// The stages at the start of a frame (Table 2-17): s(0) to s(2) are 1.
pub const FIRST_STAGES: u32 = 7;

// The stages one bit further: the new bit is the parity of the count of ones in the stages masked by the taps.
fn step(taps: u32, stages: u32) -> u32
    requires { stages < 2 ^ 25 }
    ensures { result ≡ next taps stages }
{
    stages / 2 + (u32::count_ones(stages & taps) % 2) * 0x1000000
}

// Eight bits of the scrambler, and the stages after them: no pair, whose parts a caller would tell by their place.
#[derive(Clone, Copy)]
pub struct Key {
    pub byte: u8,
    pub stages: u32,
}

// The next byte of the key: the first bit is its highest.
pub fn key_byte(taps: u32, stages: u32) -> Key
    requires { stages < 2 ^ 25 }
    ensures { (result.byte ≡ key taps 8 stages) × (result.stages ≡ after taps 8 stages) }
{
    let mut byte: u8 = 0;
    let mut later = stages;
    for _ in 0..u8::BITS {
        byte = byte * 2 + (later % 2) as u8;
        later = step(taps, later);
    }
    Key {
        byte,
        stages: later,
    }
}
