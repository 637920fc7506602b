// The kinds of record that try whole frames. The frame that the last record of `built` brought, or a change to it, is at
// hand for those behind it: `opened` opens it as it is, `refused` with some of its bytes changed.
use basics::sizes;
use header_trials::fields;
use opening::Opened;
use outcome::{Malformed, Outcome};
use refusals::Refusal;
use vectors::lent_bytes::Lent;
use vectors::{digest, lent_bytes, record};

// Taps, the fields of a header, the frame, the area: the frame is built from the others, and compared bit for bit.
pub fn built(body: &[u8], at_hand: &mut Lent) -> Outcome {
    let (taps, rest) = record::front(body)?;
    let (header, rest) = fields::front(rest)?;
    let (frame, pattern) = record::front::<{ sizes::FRAME_SIZE }>(rest)?;
    if pattern.is_empty() {
        return Err(Malformed);
    }
    *at_hand = lent_bytes::kept_behind(&frame);
    let area = lent_bytes::area(pattern);
    let mut found = lent_bytes::kept();
    frame::build(u32::from_be_bytes(taps), header, &area, &mut found);
    outcome::of(&found, at_hand)
}

// The digest of a frame, and the changes that make it of the one at hand, in whose place it comes.
pub fn changed(body: &[u8], at_hand: &mut Lent) -> Outcome {
    let (expected, changes) = record::front::<8>(body)?;
    lent_bytes::change(changes, at_hand);
    digest::outcome(&at_hand[..sizes::FRAME_SIZE], &expected)
}

// What opening answers, in 26 bytes: the refusal's number and zeros, or 0, every field, and how many bytes were repaired.
fn answer(found: Result<Opened, Refusal>) -> [u8; 26] {
    let (header, repaired) = match found {
        Ok(opened) => (Ok(opened.header), opened.repaired),
        Err(refusal) => (Err(refusal), 0),
    };
    let mut answer = [0u8; 26];
    answer[..25].copy_from_slice(&fields::answer(header));
    answer[25] = repaired;
    answer
}

// Opens a frame into room for its area: the answer, and all that was lent.
fn opened_into(taps: [u8; 4], frame: &[u8], room: usize) -> Result<([u8; 26], Lent), Malformed> {
    let mut lent = lent_bytes::kept();
    let area = lent.get_mut(..room).ok_or(Malformed)?;
    let found = answer(opening::open(u32::from_be_bytes(taps), frame, area));
    Ok((found, lent))
}

// Taps, the room lent for the area, what opening the frame at hand answers, the area that it then writes.
pub fn opened(body: &[u8], at_hand: &Lent) -> Outcome {
    let (taps, rest) = record::front(body)?;
    let (room, rest) = record::length(rest)?;
    let (expected, pattern) = record::front::<26>(rest)?;
    if pattern.is_empty() {
        return Err(Malformed);
    }
    let (found, lent) = opened_into(taps, &at_hand[..sizes::FRAME_SIZE], room)?;
    let area = lent_bytes::kept_behind(&lent_bytes::area(pattern));
    outcome::both(outcome::of(&found, &expected), outcome::of(&lent, &area))
}

// Taps, the frame's length, the room lent for the area, the refusal's number, changes to the frame at hand.
pub fn refused(body: &[u8], at_hand: &Lent) -> Outcome {
    let (taps, rest) = record::front(body)?;
    let (length, rest) = record::length(rest)?;
    let (room, rest) = record::length(rest)?;
    let (number, changes) = record::front::<1>(rest)?;
    let frame = lent_bytes::changed(at_hand, changes);
    let (found, lent) = opened_into(taps, frame.get(..length).ok_or(Malformed)?, room)?;
    outcome::both(
        outcome::of(&found[..1], &number),
        outcome::of(&lent, &lent_bytes::kept()),
    )
}
