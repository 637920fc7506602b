// The kinds of record that try the codes, 1 to 9, and 28 to 32 for the plain form of some, and the function that tries each.
use crate::codes;
use crate::forms::{Plain, Quick};
use outcome::{Malformed, Outcome};

pub fn outcome(kind: u8, body: &mut [u8]) -> Outcome {
    match kind {
        1 => codes::crc_16(body),
        2 => codes::crc_32(body),
        3 => codes::power(body),
        4 => codes::parity::<Quick>(body),
        5 => codes::codeword::<Quick>(body),
        6 => codes::payload_coded::<Quick>(body),
        7 => codes::payload_judged::<Quick>(body),
        8 => codes::taps(body),
        9 => codes::scrambled::<Quick>(body),
        28 => codes::parity::<Plain>(body),
        29 => codes::codeword::<Plain>(body),
        30 => codes::payload_coded::<Plain>(body),
        31 => codes::payload_judged::<Plain>(body),
        32 => codes::scrambled::<Plain>(body),
        _ => Err(Malformed),
    }
}
