// What a receiver reads from the 16 bytes of a header (source 000, 2.6.3.3). Frames are opened with the same two functions, judge and header_of.
#![tactic(auto)]

ghost use Rattle.std.specs.Prelude.{◌≡◌};
ghost use Rattle.refusals.specs.Numbers.{judged_by};
ghost use Rattle.refusals.specs.Table.{first_of};
ghost use Rattle.header_reading.specs.Reading.{fields_of, header_of, sum_holds, rules_hold, header_table, ReadHeaderOutcome};

use counts::{Rxfn, Txfn};
use fast_channel::FastChannel;
use header::{Fields, FrameKind, Header, coding};
use refusals::Refusal;

// The CRC-16 stands high byte first, unlike the fields.
fn sum_holds(bytes: &[u8; 16]) -> bool
    ensures { result ≡ sum_holds bytes.now }
{
    let sum = crc::crc_16(&bytes[..14]);
    sum == u16::from_be_bytes([bytes[14], bytes[15]])
}

fn rules_hold(bytes: &[u8; 16]) -> bool
    ensures { result ≡ rules_hold bytes.now }
{
    let valid = bytes[4] / 4 % 2 == 1;
    let rxfn = u16::from_le_bytes([bytes[2], bytes[3]]);
    let payload = u16::from_le_bytes([bytes[12], bytes[13]]);
    coding::rxfn_rule(valid, rxfn) && FastChannel::payload_rule(bytes[11] % 16, payload)
}

// 9 or 11 where the 16 bytes are refused, whatever their reserved bits.
#[tactic(auto, unfolding(refusals::specs::Table::first_of, refusals::specs::Table::by, refusals::specs::Numbers::refusal_of))]
pub fn judge(bytes: &[u8; 16]) -> Result<(), Refusal>
    ensures { result ≡ judged_by (first_of (header_table bytes.now)) }
{
    if !sum_holds(bytes) {
        return Err(Refusal::HeaderCheckSum);
    }
    if !rules_hold(bytes) {
        return Err(Refusal::FieldRule);
    }
    Ok(())
}

#[tactic(auto, unfolding(crate::specs::Reading::fields_of))]
fn fields_of(bytes: &[u8; 16]) -> Fields
    ensures { result ≡ fields_of bytes.now }
{
    let d4 = bytes[4];
    let d11 = bytes[11];
    let payload = u16::from_le_bytes([bytes[12], bytes[13]]);
    Fields {
        rxfn: Rxfn(u16::from_le_bytes([bytes[2], bytes[3]])),
        ack: d4 / 8 % 2 == 1,
        valid: d4 / 4 % 2 == 1,
        stamp: u64::from_le_bytes([bytes[5], bytes[6], bytes[7], bytes[8], bytes[9], 0, 0, 0]),
        seconds: bytes[10] % 64,
        applies: d11 / 16 % 8,
        message: FastChannel::received(d11 % 16, payload),
    }
}

// The header that 16 bytes hold, where they are not refused: so no `From`, which would promise it of all.
#[tactic(auto, unfolding(crate::specs::Reading::header_of))]
pub fn header_of(bytes: &[u8; 16]) -> Header
    ensures { result ≡ header_of bytes.now }
{
    Header {
        txfn: Txfn(u16::from_le_bytes([bytes[0], bytes[1]])),
        kind: FrameKind::from(bytes[4] % 4),
        fields: fields_of(bytes),
    }
}

// Reads a header from exactly 16 bytes. Refusals: 2, 9, 11.
pub fn read_header(bytes: &[u8]) -> Result<Header, Refusal>
    ensures { ReadHeaderOutcome bytes.now result }
{
    let sized = bytes.as_array().ok_or(Refusal::Length)?;
    judge(sized)?;
    Ok(header_of(sized))
}
