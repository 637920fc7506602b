// The kind of record that tries the reading of the list.
use list::Place;
use outcome::{Malformed, Outcome};
use refusals::Refusal;
use vectors::{digest, record};

// What stands at a position: the refusal's number, 0 for none; 1 for a packet; its place, its length and the position after it, 8 bytes each.
fn answer(found: Result<Option<Place>, Refusal>) -> [u8; 26] {
    let mut answer = [0u8; 26];
    match found {
        Ok(Some(place)) => {
            answer[1] = 1;
            answer[2..10].copy_from_slice(&place.start.to_be_bytes());
            answer[10..18].copy_from_slice(&place.length.to_be_bytes());
            answer[18..26].copy_from_slice(&place.next.to_be_bytes());
        }
        Ok(None) => {}
        Err(refusal) => answer[0] = u8::from(refusal),
    }
    answer
}

// How many bytes of the list's buffer are listed, the position; what stands there, and the digest of the packet, which is empty at an end or a refusal.
pub fn read(body: &[u8], bytes: &[u8]) -> Outcome {
    let (listed, rest) = record::length(body)?;
    let (position, rest) = record::front(rest)?;
    let (expected, packet_digest) = record::front::<26>(rest)?;
    let list = bytes.get(..listed).ok_or(Malformed)?;
    let position = usize::from_be_bytes(position);
    outcome::both(
        outcome::of(&answer(list::entry(list, position)), &expected),
        digest::outcome(list::packet(list, position), packet_digest),
    )
}
