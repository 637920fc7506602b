// The Reed-Solomon code of 255 bytes, 239 of them data, over the field of 256 elements: one word here, the eight words of a payload in `interleaving`.
#![tactic(auto)]

pub mod interleaving;
pub mod register;

ghost use Rattle.std.specs.Prelude.{◌≡◌, ◌≤◌, length};
ghost use Rattle.division.specs.Division.{plus};
ghost use Rattle.reed_solomon.specs.Code.{parity, remainder_of, lengthened};

// The 16 parity bytes of some data. Its bytes are rows in which the first word alone has a byte.
pub fn parity_of(message: &[u8]) -> [u8; 16]
    ensures { result ≡ parity message.now }
{
    let registers = register::fed(message.iter().map(|byte| u64::from(*byte)));
    registers.map(|register| (register % 256) as u8)
}

// What division by the generator leaves of a word, with the zeros in front that are not sent: zeros of a codeword.
pub fn remainder_of(word: &[u8]) -> [u8; 16]
    requires { (16 ≤ length word.now) × (length word.now ≤ 255) }
    ensures { result ≡ remainder_of (lengthened word.now) }
{
    let (data, last) = word.split_at(word.len() - 16);
    plus(parity_of(data), last)
}

// The sum of two polynomials. A loop, which becomes sixteen lanes.
fn plus<const N: usize>(a: [u8; N], b: &[u8]) -> [u8; N]
    requires { length b.now ≡ N }
    ensures { result ≡ plus a.entry b.now }
{
    let mut sum = [0; N];
    for i in 0..N {
        sum[i] = a[i] ^ b[i];
    }
    sum
}
