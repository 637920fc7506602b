// The kinds of record that try the sender, 16 to 20 and 33, and the function that tries each.
use crate::{calls, queues};
use outcome::{Malformed, Outcome};
use vectors::buffers::Buffers;
use vectors::lent_bytes;

pub fn outcome(kind: u8, body: &[u8], buffers: &mut Buffers) -> Outcome {
    match kind {
        16 => queues::begun(body, &mut buffers.queue),
        17 => lent_bytes::change_outcome(body, &mut buffers.queue),
        18 => calls::put(body, &mut buffers.queue),
        19 => calls::next_frame(body, buffers),
        20 => queues::in_full(body, &buffers.queue),
        33 => calls::waiting(body, &buffers.queue),
        _ => Err(Malformed),
    }
}
