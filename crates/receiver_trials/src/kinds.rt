// The kinds of record that try the receiver and its list, 21 to 27, and the function that tries each.
use crate::{arrivals, buffers, entries};
use outcome::{Malformed, Outcome};
use vectors::buffers::Buffers;
use vectors::lent_bytes;

pub fn outcome(kind: u8, body: &[u8], given: &mut Buffers) -> Outcome {
    match kind {
        21 => buffers::begun(body, given),
        22 => arrivals::arrived(body, given),
        23 => lent_bytes::change_outcome(body, &mut given.list),
        24 => entries::read(body, &given.list),
        25 => buffers::front_in_full(body, &given.list),
        26 => buffers::front_in_full(body, &given.hold),
        27 => arrivals::applied(body, given),
        _ => Err(Malformed),
    }
}
