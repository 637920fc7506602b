// The kinds of record that set the queue's bytes, or compare them.
use outcome::{Malformed, Outcome};
use vectors::{digest, record, seeded};

// A seed, and the digest of the bytes from it.
pub fn begun(body: &[u8], queue: &mut [u8]) -> Outcome {
    let (seed, expected) = record::front(body)?;
    seeded::fill(u32::from_be_bytes(seed), queue);
    digest::outcome(queue, expected)
}

// A seed and bytes: every byte of the queue, and of those behind it. They are the bytes given, and then those from the seed.
pub fn in_full(body: &[u8], queue: &[u8]) -> Outcome {
    let (seed, front) = record::front(body)?;
    let mut expected = [0; 32780];
    seeded::fill(u32::from_be_bytes(seed), &mut expected);
    expected
        .get_mut(..front.len())
        .ok_or(Malformed)?
        .copy_from_slice(front);
    outcome::of(queue, &expected)
}
