// Check values that are published: the numbers to try of the scope paper, the catalogue's check values of the two CRCs,
// the generator as CCSDS 131.0-B prints it, which names its coefficients by powers of 2; and those of the digest, which stands for bytes in records.
use std::io;
use std::io::Write;
use vectors::count::Count;
use vectors::digest;

// The generator's 17 coefficients, the highest power first.
const GENERATOR: [u8; 17] = [
    1, 165, 105, 27, 159, 104, 152, 101, 74, 101, 152, 104, 159, 27, 105, 165, 1,
];

// The exponents of CCSDS 131.0-B: coefficient k is this power of 2, and those from the middle on are the ones before it, backwards.
const EXPONENTS: [usize; 9] = [0, 30, 230, 49, 235, 129, 81, 76, 173];

// A CRC of some bytes, beside the one that is published. Two functions, for one would take the sum, its type and its digits, and be no plainer.
fn crc_16<W: Write>(
    out: &mut W,
    count: Count,
    name: &str,
    bytes: &[u8],
    published: u16,
) -> io::Result<Count> {
    let found = crc::crc_16(bytes);
    count.with_number(out, name, u64::from(found), u64::from(published), 4)
}

fn crc_32<W: Write>(
    out: &mut W,
    count: Count,
    name: &str,
    bytes: &[u8],
    published: u32,
) -> io::Result<Count> {
    let found = crc::crc_32(bytes);
    count.with_number(out, name, u64::from(found), u64::from(published), 8)
}

// What the catalogue tries a CRC on, one byte, and none.
fn check_sums<W: Write>(out: &mut W, mut count: Count) -> io::Result<Count> {
    count = crc_16(out, count, "CRC-16 of \"123456789\"", b"123456789", 0x31c3)?;
    count = crc_32(
        out,
        count,
        "CRC-32 of \"123456789\"",
        b"123456789",
        0x89a1897f,
    )?;
    count = crc_16(out, count, "CRC-16 of 01", &[1], 0x1021)?;
    count = crc_32(out, count, "CRC-32 of 01", &[1], 0x04c11db7)?;
    count = crc_16(out, count, "CRC-16 of nothing", &[], 0)?;
    crc_32(out, count, "CRC-32 of nothing", &[], 0)
}

fn powers<W: Write>(out: &mut W, count: Count) -> io::Result<Count> {
    count
        .with_number(out, "power 8", u64::from(field::power_of(8)), 0x87, 2)?
        .with_number(out, "power 9", u64::from(field::power_of(9)), 0x89, 2)?
        .with_number(out, "power 254", u64::from(field::power_of(254)), 0xc3, 2)
}

// The generator by the exponents of CCSDS 131.0-B.
fn generator_of_powers() -> [u8; 17] {
    let mut generator = [0u8; 17];
    for (k, &exponent) in EXPONENTS.iter().enumerate() {
        let power = field::power_of(exponent);
        generator[k] = power;
        generator[16 - k] = power;
    }
    generator
}

fn generators<W: Write>(out: &mut W, count: Count) -> io::Result<Count> {
    let found = reed_solomon::register::generator();
    count
        .with_bytes(out, "generator, 17 coefficients:", &found, &GENERATOR)?
        .with_bytes(
            out,
            "generator, by powers of 2:",
            &found,
            &generator_of_powers(),
        )
}

fn digests<W: Write>(out: &mut W, count: Count) -> io::Result<Count> {
    count
        .with_number(
            out,
            "FNV-1a of nothing",
            digest::of(&[]),
            0xcbf29ce484222325,
            16,
        )?
        .with_number(
            out,
            "FNV-1a of \"foobar\"",
            digest::of(b"foobar"),
            0x85944171f73967e8,
            16,
        )
}

pub fn tried<W: Write>(out: &mut W) -> io::Result<Count> {
    let mut count = check_sums(out, Count::default())?;
    count = powers(out, count)?;
    count = generators(out, count)?;
    digests(out, count)
}

// Values that are wrong, a number and bytes: both have to come out as different.
pub fn planted<W: Write>(out: &mut W) -> io::Result<Count> {
    let found = reed_solomon::register::generator();
    crc_16(out, Count::default(), "planted: CRC-16 of nothing", &[], 1)?.with_bytes(
        out,
        "planted: generator without its last:",
        &found[0..16],
        &generator_of_powers(),
    )
}
