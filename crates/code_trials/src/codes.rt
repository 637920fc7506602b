// The kinds of record that try the codes. A body is the input, and behind it what the second coder expects; a test
// comes out as a byte, 1 for true and 0 for false. A result that differs in length differs. The code of a word or of a payload
// and the scrambler have two forms, each with its own kinds of record.
use crate::forms::Form;
use outcome::{Malformed, Outcome};
use vectors::record;

// A message, and its CRC-16. This and the next are two, for one would take the sum and its type, and be no plainer.
pub fn crc_16(body: &[u8]) -> Outcome {
    let (message, expected) = body.split_last_chunk::<2>().ok_or(Malformed)?;
    outcome::of(&crc::crc_16(message).to_be_bytes(), expected)
}

// A message, and its CRC-32.
pub fn crc_32(body: &[u8]) -> Outcome {
    let (message, expected) = body.split_last_chunk::<4>().ok_or(Malformed)?;
    outcome::of(&crc::crc_32(message).to_be_bytes(), expected)
}

// An exponent, and that power of 2 in the field.
pub fn power(body: &[u8]) -> Outcome {
    let (&exponent, expected) = body.split_first().ok_or(Malformed)?;
    outcome::of(&[field::power_of(usize::from(exponent))], expected)
}

// Data, and their 16 parity bytes.
pub fn parity<F: Form>(body: &[u8]) -> Outcome {
    let (data, expected) = body.split_last_chunk::<16>().ok_or(Malformed)?;
    outcome::of(&F::parity_of(data), expected)
}

// A word of at least 16 bytes, and whether it is a codeword.
pub fn codeword<F: Form>(body: &[u8]) -> Outcome {
    let (word, expected) = body.split_last_chunk::<1>().ok_or(Malformed)?;
    if word.len() < 16 {
        return Err(Malformed);
    }
    outcome::of(&[u8::from(F::is_codeword(word))], expected)
}

// A payload of 2,040 bytes, and the same with the parity of its eight words.
pub fn payload_coded<F: Form>(body: &[u8]) -> Outcome {
    let (mut payload, expected) = record::front(body)?;
    F::write_parity(&mut payload);
    outcome::of(&payload, expected)
}

// A payload of any length, and whether it is eight codewords.
pub fn payload_judged<F: Form>(body: &[u8]) -> Outcome {
    let (payload, expected) = body.split_last_chunk::<1>().ok_or(Malformed)?;
    outcome::of(&[u8::from(F::are_codewords(payload))], expected)
}

// Taps in four bytes, and whether they are allowed.
pub fn taps(body: &[u8]) -> Outcome {
    let (taps, expected) = record::front(body)?;
    outcome::of(
        &[u8::from(scrambler::are_taps(u32::from_be_bytes(taps)))],
        expected,
    )
}

// Taps in four bytes, some bytes, and the same scrambled.
pub fn scrambled<F: Form>(body: &mut [u8]) -> Outcome {
    let (taps, rest) = body.split_first_chunk_mut().ok_or(Malformed)?;
    let taps = u32::from_be_bytes(*taps);
    let (bytes, expected) = rest.split_at_mut(rest.len() / 2);
    F::scramble(taps, bytes);
    outcome::of(bytes, expected)
}
