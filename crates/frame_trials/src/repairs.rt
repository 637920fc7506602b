// The kinds of record that try the repair of the bytes behind a frame's preamble, and what is shown after it.
use outcome::{Malformed, Outcome};
use refusals::Refusal;
use vectors::lent_bytes::Lent;
use vectors::{digest, lent_bytes, record};

// What repair answers, in two bytes: the refusal's number, 0 for none, and how many bytes were repaired.
fn answer(found: Result<u8, Refusal>) -> [u8; 2] {
    match found {
        Ok(count) => [0, count],
        Err(refusal) => [u8::from(refusal), 0],
    }
}

// The bytes behind the preamble of a frame, so many of them.
fn part(frame: &Lent, length: usize) -> Result<&[u8], Malformed> {
    frame[9..].get(..length).ok_or(Malformed)
}

// Taps, the lengths of part and scratch, the answer, the digests of all that was lent for the scratch and of what is shown, changes to the frame at
// hand: its bytes behind the preamble are the part.
pub fn repaired(body: &[u8], at_hand: &Lent) -> Outcome {
    let (taps, rest) = record::front(body)?;
    let (length, rest) = record::length(rest)?;
    let (room, rest) = record::length(rest)?;
    let (expected, rest) = record::front::<2>(rest)?;
    let (lent_digest, rest) = record::front::<8>(rest)?;
    let (shown_digest, changes) = record::front::<8>(rest)?;
    let frame = lent_bytes::changed(at_hand, changes);
    let part = part(&frame, length)?;
    let mut lent = lent_bytes::kept();
    let found = repairing::repair(
        u32::from_be_bytes(taps),
        part,
        lent.get_mut(..room).ok_or(Malformed)?,
    );
    let shown = repairing::shown(found, part, &lent[..room]);
    let called = outcome::both(
        outcome::of(&answer(found), &expected),
        digest::outcome(shown, &shown_digest),
    );
    outcome::both(called, digest::outcome(&lent, &lent_digest))
}

// An answer, by its refusal's number, the lengths of part and scratch, the digest of what is shown after this answer.
pub fn shown(body: &[u8], at_hand: &Lent) -> Outcome {
    let ([number, count], rest) = record::front::<2>(body)?;
    let (length, rest) = record::length(rest)?;
    let (room, expected) = record::length(rest)?;
    let part = part(at_hand, length)?;
    let scratch = lent_bytes::kept();
    let answer = match number {
        0 => Ok(count),
        _ => Err(number),
    };
    let shown = repairing::shown(answer, part, scratch.get(..room).ok_or(Malformed)?);
    digest::outcome(shown, expected)
}
