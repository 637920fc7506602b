// The kinds of record that try put, waiting and next_frame.
use crate::states;
use header_trials::fields;
use outcome::{Malformed, Outcome};
use vectors::buffers::Buffers;
use vectors::{digest, lent_bytes, record, seeded};

// The answer, the digest of the queue.
fn put_outcome(answer: &[u8; 20], queue: &[u8], expected: &[u8]) -> Outcome {
    let (expected_answer, expected_digest) = record::front::<20>(expected)?;
    outcome::both(
        outcome::of(answer, &expected_answer),
        digest::outcome(queue, expected_digest),
    )
}

// The state, the queue's length, the packet's length and its seed; the answer, the digest of the queue.
pub fn put(body: &[u8], queue: &mut [u8]) -> Outcome {
    let (sender, rest) = states::sender(body)?;
    let (length, rest) = record::length(rest)?;
    let (packet_length, rest) = record::length(rest)?;
    let (seed, expected) = record::front(rest)?;
    let mut packet = [0u8; 10000];
    seeded::fill(u32::from_be_bytes(seed), &mut packet);
    let found = sender::put(
        queue.get_mut(..length).ok_or(Malformed)?,
        sender,
        packet.get(..packet_length).ok_or(Malformed)?,
    );
    put_outcome(&states::put_answer(found, sender), queue, expected)
}

// The state, the queue's length; the answer.
pub fn waiting(body: &[u8], queue: &[u8]) -> Outcome {
    let (sender, rest) = states::sender(body)?;
    let (length, expected) = record::length(rest)?;
    let found = sender::waiting(queue.get(..length).ok_or(Malformed)?, sender);
    outcome::of(&states::waiting_answer(found), expected)
}

// The bytes that were lent for a frame, by their digest; and their first ones in full, where they are given.
fn output_outcome(output: &[u8], expected: &[u8], frame: &[u8]) -> Outcome {
    let front = output.get(..frame.len()).ok_or(Malformed)?;
    outcome::both(digest::outcome(output, expected), outcome::of(front, frame))
}

// Taps, fields, state, the queue's length, the length lent for the frame; the answer, the digests of the queue and of what was lent for the frame, and
// of some frames every byte. A frame that is sent is then at hand.
pub fn next_frame(body: &[u8], buffers: &mut Buffers) -> Outcome {
    let (taps, rest) = record::front(body)?;
    let (header, rest) = fields::front(rest)?;
    let (sender, rest) = states::sender(rest)?;
    let (length, rest) = record::length(rest)?;
    let (room, expected) = record::length(rest)?;
    let mut output = lent_bytes::kept();
    let found = sending::next_frame(
        u32::from_be_bytes(taps),
        header.fields,
        sender,
        buffers.queue.get_mut(..length).ok_or(Malformed)?,
        output.get_mut(..room).ok_or(Malformed)?,
    );
    if found.is_ok() {
        buffers.at_hand = output;
    }
    let (expected_put, rest) = record::front::<28>(expected)?;
    let (expected_output, frame) = record::front::<8>(rest)?;
    outcome::both(
        put_outcome(
            &states::next_answer(found, sender),
            &buffers.queue,
            &expected_put,
        ),
        output_outcome(&output, &expected_output, frame),
    )
}
