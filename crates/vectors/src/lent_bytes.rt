// The bytes that are lent to a call, before it and after it.
ghost use Rattle.std.specs.Prelude.{◌≤◌, length};

use crate::{digest, record};
use basics::sizes;
use outcome::Outcome;

// What is lent to a call and compared after it: more bytes than a frame or an area has, so that a byte written past its end
// is seen. A frame at hand stands at the front of as many.
pub type Lent = [u8; 2100];

// An area, as a record holds it: a pattern that is repeated up to 1,908 bytes. An empty pattern leaves zeros.
pub fn area(pattern: &[u8]) -> [u8; sizes::AREA_SIZE] {
    let mut area = [0u8; sizes::AREA_SIZE];
    for (byte, &given) in area.iter_mut().zip(pattern.iter().cycle()) {
        *byte = given;
    }
    area
}

// An area by its first bytes; behind them it has zeros.
pub fn zeros_behind(front: &[u8]) -> [u8; sizes::AREA_SIZE]
    requires { length front.now ≤ 1908 }
{
    let mut area = [0u8; sizes::AREA_SIZE];
    area[..front.len()].copy_from_slice(front);
    area
}

// Lent bytes before a call: four letters, 525 times.
pub fn kept() -> Lent {
    let mut lent = [0u8; 2100];
    lent.as_chunks_mut::<4>().0.fill(*b"kept");
    lent
}

// The same, with some bytes at the front; a function of its own, since what stands behind them is not zeros, and is longer.
pub fn kept_behind(front: &[u8]) -> Lent
    requires { length front.now ≤ 2100 }
{
    let mut lent = kept();
    lent[..front.len()].copy_from_slice(front);
    lent
}

// Changes some bytes: each three bytes are a place, in two bytes, and what is added modulo 2 to the byte there.
pub fn change(changes: &[u8], bytes: &mut [u8]) {
    for &[high, low, added] in changes.as_chunks::<3>().0 {
        let place = usize::from(u16::from_be_bytes([high, low]));
        if let Some(byte) = bytes.get_mut(place) {
            *byte ^= added;
        }
    }
}

// The digest of bytes after some changes, and the changes: they are made, and the digest is compared.
pub fn change_outcome(body: &[u8], bytes: &mut [u8]) -> Outcome {
    let (expected, changes) = record::front::<8>(body)?;
    change(changes, bytes);
    digest::outcome(bytes, &expected)
}

// A frame with some bytes changed.
pub fn changed(frame: &Lent, changes: &[u8]) -> Lent {
    let mut next = *frame;
    change(changes, &mut next);
    next
}
