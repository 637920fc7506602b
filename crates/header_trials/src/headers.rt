// The kinds of record that try the level and the bare header.
use crate::fields;
use flat::FlatCode;
use outcome::{Malformed, Outcome};

// How far the level of a code lies below 0. No `unsigned_abs`, which would give the same of a level above 0.
fn below_zero(code: u8) -> u32 {
    (0 - fast_channel::level(code)) as u32
}

// A code, and how far its level lies below 0, in four bytes.
pub fn level(body: &[u8]) -> Outcome {
    let (&code, expected) = body.split_first().ok_or(Malformed)?;
    outcome::of(&below_zero(code).to_be_bytes(), expected)
}

// The fields of a header and the bytes lent; the refusal's number, and the bytes lent after the call.
pub fn coded(body: &mut [u8]) -> Outcome {
    let (header, _) = fields::front(body)?;
    let (_, rest) = body.split_first_chunk_mut::<24>().ok_or(Malformed)?;
    let length = rest.len().checked_sub(1).ok_or(Malformed)? / 2;
    let (bytes, expected) = rest.split_at_mut(length);
    let number = FlatCode::from(header::code_header(header, bytes)).refusal;
    let (&expected_number, expected_bytes) = expected.split_first().ok_or(Malformed)?;
    outcome::both(
        outcome::of(&[number], &[expected_number]),
        outcome::of(bytes, expected_bytes),
    )
}

// The bytes to read; the refusal's number, and the fields of the header read, 0 where it is refused.
pub fn read(body: &[u8]) -> Outcome {
    let (bytes, expected) = body.split_last_chunk::<25>().ok_or(Malformed)?;
    outcome::of(
        &fields::answer(header_reading::read_header(bytes)),
        expected,
    )
}
