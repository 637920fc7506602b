// Bytes by a rule from a seed, so that a record holds the seed in place of them: Marsaglia's xorshift generator of 32 bits, shifts 13, 17 and 5.
// A byte is bits 15 to 8 of the next number.

fn next(number: u32) -> u32 {
    let first = number ^ number << 13;
    let second = first ^ first >> 17;
    second ^ second << 5
}

pub fn fill(seed: u32, bytes: &mut [u8]) {
    let mut number = seed;
    for byte in bytes.iter_mut() {
        number = next(number);
        *byte = number.to_be_bytes()[2];
    }
}
