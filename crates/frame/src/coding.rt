// The parts of a frame that is built.
ghost use Rattle.std.specs.Prelude.{◌≡◌, ◌++◌, ◌+◌, ◌≤◌, length};
ghost use Rattle.lent.specs.Written.{written};
ghost use Rattle.scrambler.specs.Scrambler.{scrambled};
ghost use Rattle.header.specs.Header.{all_ones};
ghost use Rattle.frame.specs.Frame.{preamble, coded_header_with, area_check, area_payload};

use basics::sizes;
use header::Header;
use reed_solomon::interleaving;

const PREAMBLE: [u8; 9] = [0x77, 0xAD, 0x5B, 0x58, 0x43, 0x64, 0x1E, 0x2E, 0x26];

pub fn preamble() -> [u8; 9]
    ensures { result ≡ preamble }
{
    PREAMBLE
}

fn coded_header(header: Header) -> [u8; 32]
    ensures { result ≡ coded_header_with all_ones header }
{
    let bytes = header::coding::header_bytes(header);
    let parity = reed_solomon::parity_of(&bytes);
    let mut coded = [0; 32];
    write_both(&mut coded, &bytes, &parity);
    coded
}

// The CRC-32 stands high byte first.
#[tactic(auto, unfolding(crate::specs::Frame::area_check))]
pub fn area_check(area: &[u8]) -> [u8; 4]
    ensures { result ≡ area_check area.now }
{
    crc::crc_32(area).to_be_bytes()
}

// The area and its check sum, coded into eight interleaved words.
fn fill_payload(area: &[u8; sizes::AREA_SIZE], payload: &mut [u8])
    requires { length payload.old ≡ 2040 }
    ensures { payload.new ≡ area_payload area.now }
{
    write_both(payload, area, &area_check(area));
    interleaving::write_parity(payload);
}

// All that follows the preamble: the coded header and the area's payload, scrambled without a break.
pub fn fill_part(taps: u32, header: Header, area: &[u8; sizes::AREA_SIZE], part: &mut [u8])
    requires { length part.old ≡ 2072 }
    ensures { part.new ≡ scrambled taps (coded_header_with all_ones header ++ area_payload area.now) }
{
    lent::write_at(part, 0, &coded_header(header));
    fill_payload(area, &mut part[32..]);
    scrambler::scramble(taps, part);
}

// Writes first to the front of buffer and second behind it, and touches nothing else.
fn write_both(buffer: &mut [u8], first: &[u8], second: &[u8])
    requires { length first.now + length second.now ≤ length buffer.old }
    ensures { buffer.new ≡ written buffer.old 0 (first.now ++ second.now) }
{
    lent::write_at(buffer, 0, first);
    lent::write_at(buffer, first.len(), second);
}
