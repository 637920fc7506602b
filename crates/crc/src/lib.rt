// The two check sums of a frame, with no table, since a small controller does not scrub constant data: the CRC-16 bit by bit, and the CRC-32 by folding.
//
// The polynomial of the CRC-32 divides x^984 + x^888 + x^736 + x^672 + x^512 + x^368 + x^184 + 1, whose powers are of whole bytes. So the first eight bytes
// of a message may be added to those that begin 12, 31, 39, 59, 77, 100 and 123 bytes later, and left out. The last 124 bytes are divided bit by bit.
#![tactic(auto)]

ghost use Rattle.std.specs.Prelude.{◌≡◌, ◌+◌, ◌/◌, ◌^◌, ◌≤◌, ◌<◌, length, drop};
ghost use Rattle.std.specs.Int.Bits.{bit_xor};
ghost use Rattle.division.specs.Doubling.{twice};
ghost use Rattle.crc.specs.Crc.{crc, crc_16, crc_32};
ghost use Rattle.crc.specs.Register.{byte_step, number_sum};

use basics::sizes;

// The bytes that folding leaves out of an area: 223 times eight, and the 124 that remain are too few for one more turn.
const FOLDED: usize = 1784;

// A divisor over bits, of degree 32: digit k of the number is the coefficient of x^k. A register holds what is left of a message so far.
#[derive(Clone, Copy)]
struct Divisor {
    polynomial: u64,
    ghost of_degree_32: { polynomial / 2 ^ 32 ≡ 1 },
}

// Table 2-15, frame header, times x^16: then one register of 32 bits serves both, and the remainder has sixteen zeros behind it too.
const HEADER_DIVISOR: Divisor = Divisor {
    polynomial: 0x110210000,
};

// Table 2-15, frame payload.
const PAYLOAD_DIVISOR: Divisor = Divisor {
    polynomial: 0x104C11DB7,
};

impl Divisor {
    // A register times x, modulo the polynomial.
    fn twice(self, register: u32) -> u32
        ensures { result ≡ twice 32 self.polynomial register }
    {
        let double = register as u64 * 2;
        (double ^ (double / 0x100000000 * self.polynomial)) as u32
    }

    // The register after one more byte.
    fn byte_step(self, register: u32, byte: u8) -> u32
        ensures { result ≡ byte_step 32 self.polynomial register byte }
    {
        let mut sum = register ^ (byte as u32 * 0x1000000);
        for _ in 0..u8::BITS {
            sum = self.twice(sum);
        }
        sum
    }

    // The check sum of a message, bit by bit.
    fn check_sum(self, message: &[u8]) -> u32
        ensures { result ≡ crc 32 self.polynomial message.now }
    {
        let mut register: u32 = 0;
        for &byte in message {
            register = self.byte_step(register, byte);
        }
        register
    }
}

// The CRC-16 of a message.
pub fn crc_16(message: &[u8]) -> u16
    ensures { result ≡ crc_16 message.now }
{
    (HEADER_DIVISOR.check_sum(message) / 0x10000) as u16
}

// Adds a number's eight bytes to those from index at on.
fn add_number(bytes: &mut [u8], at: usize, number: u64)
    requires { (8 ≤ at) × (at + 8 ≤ length bytes.old) }
    ensures { crc_32 (drop 8 bytes.new)
        ≡ bit_xor (crc_32 (drop 8 bytes.old)) (number_sum (length bytes.old) at number) }
{
    let sum = lent::numbers::number_at(bytes, at) ^ number;
    lent::numbers::write_number(bytes, at, sum);
}

// Adds the first eight bytes to later ones, up to the eight from index 123 on. The check sum of those that follow the first eight is then that of all before.
fn fold(bytes: &mut [u8])
    requires { 131 ≤ length bytes.old }
    ensures { crc_32 (drop 8 bytes.new) ≡ crc_32 bytes.old }
{
    let number = lent::numbers::number_at(bytes, 0);
    add_number(bytes, 12, number);
    add_number(bytes, 31, number);
    add_number(bytes, 39, number);
    add_number(bytes, 59, number);
    add_number(bytes, 77, number);
    add_number(bytes, 100, number);
    add_number(bytes, 123, number);
}

// The CRC-32 of a message. One of 1,908 bytes, as a frame has, is folded; any other goes bit by bit.
pub fn crc_32(message: &[u8]) -> u32
    ensures { result ≡ crc_32 message.now }
{
    let Ok(mut bytes) = <[u8; sizes::AREA_SIZE]>::try_from(message) else {
        return PAYLOAD_DIVISOR.check_sum(message);
    };
    for at in (0..FOLDED).step_by(8) {
        fold(&mut bytes[at..]);
    }
    PAYLOAD_DIVISOR.check_sum(&bytes[FOLDED..])
}
