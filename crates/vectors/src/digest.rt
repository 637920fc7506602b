// A digest of 64 bits, FNV-1a, for bytes that are too many to be stored. It stands in for them in a comparison: bytes that differ have the same
// digest by chance alone, once in 2^64.
use outcome::Outcome;

const START: u64 = 0xcbf29ce484222325;

const PRIME: u64 = 0x100000001b3;

pub fn of(bytes: &[u8]) -> u64 {
    let mut digest = START;
    for &byte in bytes {
        digest = (digest ^ u64::from(byte)).wrapping_mul(PRIME);
    }
    digest
}

// Whether the bytes found have the digest expected, of 8 bytes.
pub fn outcome(found: &[u8], expected: &[u8]) -> Outcome {
    outcome::of(&of(found).to_be_bytes(), expected)
}
