// The eight interleaved words of the Reed-Solomon code in a payload of 2,040 bytes: eight neighbours are a row, with a byte of each word.
// A payload is lent as a part of a longer buffer: as an array each caller would have to test the length that its contract proves.
ghost use Rattle.std.specs.Prelude.{◌≡◌, ◌*◌, ◌<◌, length, take};
ghost use Rattle.basics.specs.Lists.{entries};
ghost use Rattle.reed_solomon.specs.Payload.{every_eighth, parity_byte, coded_payload};
ghost use Rattle.reed_solomon.specs.Rows.{remainder_byte};

use crate::register;
use lent::numbers;

// Writes the 128 parity bytes of the eight words behind the 1,912 bytes of data.
pub fn write_parity(payload: &mut [u8])
    requires { length payload.old ≡ 2040 }
    ensures { payload.new ≡ coded_payload (take 1912 payload.old) }
{
    let parity = parity_bytes(&payload[..1912]);
    lent::write_at(payload, 1912, &parity);
}

// What division by the generator leaves of the eight words, interleaved as they are: zeros where all of them are codewords.
pub fn remainders(payload: &[u8]) -> [u8; 128]
    requires { length payload.now ≡ 2040 }
    ensures { result ≡ entries (remainder_byte payload.now) 0 128 }
{
    let (data, last) = payload.split_at(1912);
    crate::plus(parity_bytes(data), last)
}

// Every eighth byte from k on: word k of a payload, or what division leaves of it. A loop, as `values::step` of crate nearest is one: in a generic function
// the check learns nothing of an array from the closure that `from_fn` calls. A type for k below 8 would be made and taken apart at each call.
pub fn gathered<const N: usize>(bytes: &[u8], k: usize) -> [u8; N]
    requires { (k < 8) × (length bytes.now ≡ 8 * N) }
    ensures { result ≡ every_eighth N k bytes.now }
{
    let mut word = [0; N];
    for i in 0..N {
        word[i] = bytes[k + 8 * i];
    }
    word
}

// The parity bytes of the eight words of 1,912 bytes of data.
fn parity_bytes(message: &[u8]) -> [u8; 128]
    requires { length message.now ≡ 1912 }
    ensures { result ≡ entries (parity_byte message.now) 0 128 }
{
    let registers = register::fed((0..239).map(|i| numbers::number_at(message, 8 * i)));
    let mut parity = [0u8; 128];
    numbers::write_numbers(&mut parity, &registers);
    parity
}
