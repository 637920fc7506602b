// The plain form of the Reed-Solomon code, for a reader who holds it against 2.6.3.6.3: word by word, by long division with a register of 16 bytes.
// The quick forms, with the same contracts but for the tests of a word (D-107), stand in crate reed_solomon (one word) and its module interleaving (a payload).
#![tactic(auto)]

ghost use Rattle.std.specs.Prelude.{◌≡◌, ◌≤◌, ◌<◌, length, take};
ghost use mathlib.Core.List.{tail};
ghost use Rattle.field.specs.Field.{times};
ghost use Rattle.division.specs.Register.{step};
ghost use Rattle.reed_solomon.specs.Code.{generator, parity, is_codeword, lengthened};
ghost use Rattle.reed_solomon.specs.Payload.{coded_payload, are_codewords};
ghost use Rattle.plain_reed_solomon.specs.Word.{with_parity};

use reed_solomon::{interleaving, register};

// The 16 parity bytes of some data: what a register of zeros holds after them.
pub fn parity_of(message: &[u8]) -> [u8; 16]
    ensures { result ≡ parity message.now }
{
    let coefficients = register::generator();
    let mut register = [0u8; 16];
    for byte in message {
        // With no `next`, "the borrow checker does not cover this function yet".
        let next = shift(&coefficients, register, *byte);
        register = next;
    }
    register
}

// One byte goes into the register, place by place, as the standard draws it.
fn shift(coefficients: &[u8; 17], register: [u8; 16], byte: u8) -> [u8; 16]
    requires { coefficients.now ≡ generator }
    ensures { result ≡ step times (tail generator) register byte }
{
    let leaving = register[0] ^ byte;
    let mut next = [0u8; 16];
    for j in 0..15 {
        next[j] = field::product(leaving, coefficients[j + 1]) ^ register[j + 1];
    }
    next[15] = field::product(leaving, coefficients[16]);
    next
}

// Whether a word, with the zeros in front that are not sent, is a codeword.
pub fn is_codeword(word: &[u8]) -> bool
    requires { 16 ≤ length word.now }
    ensures { result ≡ is_codeword (lengthened word.now) }
{
    if 255 < word.len() {
        return false;
    }
    let end = word.len() - 16;
    let parity = parity_of(&word[..end]);
    lent::are_same(&word[end..], &parity)
}

// Writes the 128 parity bytes of the eight words behind the 1,912 bytes of data.
pub fn write_parity(payload: &mut [u8])
    requires { length payload.old ≡ 2040 }
    ensures { payload.new ≡ coded_payload (take 1912 payload.old) }
{
    for k in 0..8 {
        write_word(payload, k);
    }
}

// Whether all eight words are codewords.
pub fn are_codewords(payload: &[u8]) -> bool
    ensures { result ≡ are_codewords payload.now }
{
    payload.len() == 2040 && (0..8).all(|k| is_codeword(&interleaving::gathered::<255>(payload, k)))
}

// Writes the parity of word k. By an index, for each byte goes to a place of its own, eight behind the one before.
fn write_word(payload: &mut [u8], k: usize)
    requires { (k < 8) × (length payload.old ≡ 2040) }
    ensures { payload.new ≡ with_parity k payload.old }
{
    let word = interleaving::gathered::<255>(payload, k);
    let parity = parity_of(&word[..239]);
    for j in 0..16 {
        payload[1912 + k + 8 * j] = parity[j];
    }
}
