// The kinds of record that try the level and the bare header, 10 to 12, and the function that tries each.
use crate::headers;
use outcome::{Malformed, Outcome};

pub fn outcome(kind: u8, body: &mut [u8]) -> Outcome {
    match kind {
        10 => headers::level(body),
        11 => headers::coded(body),
        12 => headers::read(body),
        _ => Err(Malformed),
    }
}
