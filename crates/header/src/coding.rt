// A header as 16 bytes, and what may be sent in them. Frames are built with the same two functions, fields_fit and header_bytes, and what was opened is
// judged by the first.
ghost use Rattle.std.specs.Prelude.{◌≡◌};
ghost use Rattle.header.specs.Header.{all_ones, flags_byte, seconds_byte, channel_byte, rxfn_rule};
ghost use Rattle.header.specs.Header.{fields_fit, field_bytes, header_bytes};

use crate::{Fields, FrameKind, Header};
use fast_channel::FastChannel;

// With ACK-valid 0, RXFN is 0.
pub fn rxfn_rule(valid: bool, rxfn: u16) -> bool
    ensures { result ≡ rxfn_rule valid rxfn }
{
    valid || rxfn == 0
}

// No field is too large for its bits or against its rule (refusal 6; 11 of apply).
#[tactic(auto, unfolding(crate::specs::Header::fields_fit))]
pub fn fields_fit(fields: Fields) -> bool
    ensures { result ≡ fields_fit fields }
{
    rxfn_rule(fields.valid, fields.rxfn.0)
        && fields.stamp < 1099511627776
        && fields.seconds < 64
        && fields.applies < 8
        && fields.message.fits()
}

fn flags_byte(ack: bool, valid: bool, kind: FrameKind) -> u8
    ensures { result ≡ flags_byte all_ones.d4 ack valid kind }
{
    0xF0 + 8 * u8::from(ack) + 4 * u8::from(valid) + u8::from(kind)
}

fn seconds_byte(seconds: u8) -> u8
    ensures { result ≡ seconds_byte all_ones.d10 seconds }
{
    0xC0 + seconds % 64
}

fn channel_byte(applies: u8, message: FastChannel) -> u8
    ensures { result ≡ channel_byte all_ones.d11 applies message }
{
    0x80 + 16 * (applies % 8) + message.opcode() % 16
}

// d0 to d13. A number too large for its field is cut off.
#[tactic(auto, unfolding(crate::specs::Header::field_bytes_with))]
fn field_bytes(header: Header) -> [u8; 14]
    ensures { result ≡ field_bytes header }
{
    let fields = header.fields;
    let txfn = header.txfn.0.to_le_bytes();
    let rxfn = fields.rxfn.0.to_le_bytes();
    let stamp = fields.stamp.to_le_bytes();
    let payload = fields.message.payload().to_le_bytes();
    [
        txfn[0],
        txfn[1],
        rxfn[0],
        rxfn[1],
        flags_byte(fields.ack, fields.valid, header.kind),
        stamp[0],
        stamp[1],
        stamp[2],
        stamp[3],
        stamp[4],
        seconds_byte(fields.seconds),
        channel_byte(fields.applies, fields.message),
        payload[0],
        payload[1],
    ]
}

// The 16 bytes: the check sum stands high byte first, unlike the fields. `From<Header>` would be no plainer: `<[u8; 16]>::from(header)` says less.
pub fn header_bytes(header: Header) -> [u8; 16]
    ensures { result ≡ header_bytes header }
{
    let fields = field_bytes(header);
    let check = crc::crc_16(&fields).to_be_bytes();
    let mut coded = [0; 16];
    lent::write_at(&mut coded, 0, &fields);
    lent::write_at(&mut coded, 14, &check);
    coded
}
