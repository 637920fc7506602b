// The input: the number of records in four bytes; then each record as its kind, one byte, the length of its body, two
// bytes, and the body. Numbers have their highest byte first.
ghost use Rattle.std.specs.Prelude.{◌≡◌, ◌<◌, ◌↔◌, ◌++◌, length, take, drop, IfOk, IsErr};
ghost use Rattle.std.specs.Int.{from_be_bytes, w16};

use outcome::Malformed;
use std::io::Read;

// A record with its body, which stands in bytes that were lent for it.
#[derive(Drop)]
pub struct Record<'a> {
    pub kind: u8,
    pub body: &'a mut [u8],
}

// The next bytes of the input, where it has so many. One that cannot be read ends there.
fn read<R: Read, const N: usize>(input: &mut R) -> Option<[u8; N]> {
    let mut bytes = [0u8; N];
    input.read_exact(&mut bytes).ok()?;
    Some(bytes)
}

// The next record, unless the input ends before it does. There is room for every body.
pub fn next<'a, R: Read>(input: &mut R, room: &'a mut [u8; 65536]) -> Option<Record<'a>> {
    let [kind, high, low] = read::<R, 3>(input)?;
    let body = &mut room[..usize::from(u16::from_be_bytes([high, low]))];
    input.read_exact(body).ok()?;
    Some(Record { kind, body })
}

// The number of records that the input announces. Where it is too short to say so: 1, a record that is then missing.
pub fn announced<R: Read>(input: &mut R) -> u32 {
    match read(input) {
        Some(bytes) => u32::from_be_bytes(bytes),
        None => 1,
    }
}

// Whether nothing is left of the input.
pub fn is_at_end<R: Read>(input: &mut R) -> bool {
    read::<R, 1>(input).is_none()
}

// The first bytes of a body or of a part of one, and what stands behind them.
pub fn front<const N: usize>(body: &[u8]) -> Result<([u8; N], &[u8]), Malformed>
    ensures found { IfOk result (λ r. r.0 ++ r.1.now ≡ body.now) }
    ensures short { IsErr result ↔ (length body.now < N) }
{
    let (first, rest) = body.split_first_chunk().ok_or(Malformed)?;
    Ok((*first, rest))
}

// A length in the first two bytes, and what stands behind it.
pub fn length(body: &[u8]) -> Result<(usize, &[u8]), Malformed>
    ensures number { IfOk result (λ r. r.0 ≡ from_be_bytes w16 (take 2 body.now)) }
    ensures behind { IfOk result (λ r. r.1.now ≡ drop 2 body.now) }
    ensures short { IsErr result ↔ (length body.now < 2) }
{
    let (length, rest) = front(body)?;
    Ok((usize::from(u16::from_be_bytes(length)), rest))
}
