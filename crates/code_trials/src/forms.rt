// The two forms of the code of a word, of the code of a payload and of the scrambler: the quick one, which the link uses, and the plain one beside it.
ghost use Rattle.std.specs.Prelude.{◌≤◌, length};

use reed_solomon::interleaving;

pub trait Form {
    fn parity_of(data: &[u8]) -> [u8; 16];

    // That a word has 16 bytes or more stands here and in what both forms ask: a type for it would ask more of their callers.
    fn is_codeword(word: &[u8]) -> bool
        requires { 16 ≤ length word.now };

    fn write_parity(payload: &mut [u8; 2040]);

    fn are_codewords(payload: &[u8]) -> bool;

    fn scramble(taps: u32, bytes: &mut [u8]);
}

#[derive(Clone, Copy)]
pub struct Quick;

#[derive(Clone, Copy)]
pub struct Plain;

// The quick form answers with what division leaves.
impl Form for Quick {
    fn parity_of(data: &[u8]) -> [u8; 16] {
        reed_solomon::parity_of(data)
    }

    fn is_codeword(word: &[u8]) -> bool {
        word.len() <= 255 && reed_solomon::remainder_of(word) == [0; 16]
    }

    fn write_parity(payload: &mut [u8; 2040]) {
        interleaving::write_parity(payload);
    }

    fn are_codewords(payload: &[u8]) -> bool {
        match <&[u8; 2040]>::try_from(payload) {
            Ok(payload) => interleaving::remainders(payload) == [0; 128],
            Err(_) => false,
        }
    }

    fn scramble(taps: u32, bytes: &mut [u8]) {
        scrambler::scramble(taps, bytes);
    }
}

impl Form for Plain {
    fn parity_of(data: &[u8]) -> [u8; 16] {
        plain_reed_solomon::parity_of(data)
    }

    fn is_codeword(word: &[u8]) -> bool {
        plain_reed_solomon::is_codeword(word)
    }

    fn write_parity(payload: &mut [u8; 2040]) {
        plain_reed_solomon::write_parity(payload);
    }

    fn are_codewords(payload: &[u8]) -> bool {
        plain_reed_solomon::are_codewords(payload)
    }

    fn scramble(taps: u32, bytes: &mut [u8]) {
        plain_scrambler::scramble(taps, bytes);
    }
}
