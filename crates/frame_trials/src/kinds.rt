// The kinds of record that try whole frames, 13 to 15 and 34, and their repair, 35 and 36; and the function that tries each.
use crate::{frames, repairs};
use outcome::{Malformed, Outcome};
use vectors::lent_bytes::Lent;

pub fn outcome(kind: u8, body: &[u8], at_hand: &mut Lent) -> Outcome {
    match kind {
        13 => frames::built(body, at_hand),
        14 => frames::opened(body, at_hand),
        15 => frames::refused(body, at_hand),
        34 => frames::changed(body, at_hand),
        35 => repairs::repaired(body, at_hand),
        36 => repairs::shown(body, at_hand),
        _ => Err(Malformed),
    }
}
