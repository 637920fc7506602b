// The kinds of record that set the bytes of hold and list, or compare them.
use outcome::{Malformed, Outcome};
use vectors::buffers::Buffers;
use vectors::{digest, record, seeded};

// The digests of hold and list, each with the bytes behind it.
pub fn outcome(buffers: &Buffers, expected: &[u8]) -> Outcome {
    let (hold, list) = record::front::<8>(expected)?;
    outcome::both(
        digest::outcome(&buffers.hold, &hold),
        digest::outcome(&buffers.list, list),
    )
}

// The seeds of hold and list, and the digests of the bytes from them.
pub fn begun(body: &[u8], buffers: &mut Buffers) -> Outcome {
    let (hold_seed, rest) = record::front(body)?;
    let (list_seed, expected) = record::front(rest)?;
    seeded::fill(u32::from_be_bytes(hold_seed), &mut buffers.hold);
    seeded::fill(u32::from_be_bytes(list_seed), &mut buffers.list);
    outcome(buffers, expected)
}

// The first bytes of the hold or of the list, as many as are given.
pub fn front_in_full(body: &[u8], bytes: &[u8]) -> Outcome {
    outcome::of(bytes.get(..body.len()).ok_or(Malformed)?, body)
}
