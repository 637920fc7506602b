// Parts of the work on a frame, for C to call: bench/run counts the instructions of each. The library's own calls for C stand in `taqwelim`.
#![tactic(auto)]

ghost use Rattle.std.specs.Prelude.{◌≡◌, length, is_some};
ghost use Rattle.basics.specs.Lists.{Bytes};
ghost use Rattle.reed_solomon.specs.Code.{remainder_of};
ghost use Rattle.nearest.specs.Near.{near_word, repaired_word};
ghost use Rattle.header.specs.Header.{flag_bit};
ghost use Rattle.crc.specs.Crc.{crc_32};
ghost use Rattle.scrambler.specs.Scrambler.{scrambled};
ghost use Rattle.opening.specs.Opening.{open_refusal};
ghost use Rattle.parts.specs.Parts.{plain_header, parity_out, remainders_out, built_out, opened_out};

use basics::sizes;
use counts::{Rxfn, Txfn};
use fast_channel::FastChannel;
use header::{Fields, FrameKind, Header};
use reed_solomon::interleaving;

#[unsafe(no_mangle)]
pub extern "C" fn part_crc_32(bytes: &[u8]) -> u32
    ensures { result ≡ crc_32 bytes.now }
{
    crc::crc_32(bytes)
}

#[unsafe(no_mangle)]
pub extern "C" fn part_scramble(taps: u32, bytes: &mut [u8])
    ensures { bytes.new ≡ scrambled taps bytes.old }
{
    scrambler::scramble(taps, bytes);
}

// Nothing where the payload does not have 2,040 bytes.
#[unsafe(no_mangle)]
pub extern "C" fn part_write_parity(payload: &mut [u8])
    ensures { payload.new ≡ parity_out payload.old }
{
    if payload.len() != 2040 {
        return;
    }
    interleaving::write_parity(payload);
}

// What division leaves of the eight words; nothing where the payload does not have 2,040 bytes.
#[unsafe(no_mangle)]
pub extern "C" fn part_remainders(payload: &[u8], out: &mut [u8])
    ensures { out.new ≡ remainders_out payload.now out.old }
{
    if payload.len() != 2040 {
        return;
    }
    if out.len() < 128 {
        return;
    }
    lent::write_at(out, 0, &interleaving::remainders(payload));
}

// Repairs a payload word of which division left this, and tells whether a codeword was near. Only the count of instructions calls it, with a remainder that
// it took from `part_remainders`; the library's calls for C have no `requires`.
#[unsafe(no_mangle)]
pub extern "C" fn part_repair_word(word: &mut [u8], remainder: &[u8]) -> u8
    requires { (length word.old ≡ 255) × Bytes word.old × (length remainder.now ≡ 16) × (remainder.now ≡ remainder_of word.old) }
    ensures value { result ≡ flag_bit (is_some (near_word word.old)) }
    ensures bytes { word.new ≡ repaired_word word.old }
{
    let mut own = [0u8; 255];
    own.copy_from_slice(word);
    let mut left = [0u8; 16];
    left.copy_from_slice(remainder);
    let Some(repaired) = nearest::repair_word(own, left) else {
        return 0;
    };
    word.copy_from_slice(&repaired);
    1
}

// DATA, frame 0, and nothing else to tell.
fn plain_header() -> Header
    ensures { result ≡ plain_header }
{
    Header {
        txfn: Txfn(0),
        kind: FrameKind::Data,
        fields: Fields {
            rxfn: Rxfn(0),
            ack: false,
            valid: false,
            stamp: 0,
            seconds: 0,
            applies: 0,
            message: FastChannel::Absent,
        },
    }
}

// Nothing where the area does not have 1,908 bytes, or the output fewer than 2,081.
#[unsafe(no_mangle)]
pub extern "C" fn part_build(taps: u32, area: &[u8], out: &mut [u8])
    ensures { out.new ≡ built_out taps area.now out.old }
{
    let Some(area) = area.as_array() else {
        return;
    };
    if out.len() < sizes::FRAME_SIZE {
        return;
    }
    // A copy, so that the archive needs no `memmove`: as far as the compiler knows, C lends an area and an output that overlap.
    let own = *area;
    frame::build(taps, plain_header(), &own, out);
}

#[unsafe(no_mangle)]
pub extern "C" fn part_open(taps: u32, frame: &[u8], area: &mut [u8]) -> u8
    ensures value { result ≡ open_refusal taps frame.now area.old }
    ensures bytes { area.new ≡ opened_out taps frame.now area.old }
{
    match opening::open(taps, frame, area) {
        Ok(_) => 0,
        Err(refusal) => u8::from(refusal),
    }
}
