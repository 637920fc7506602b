// A header as the vectors hold it, field by field in 24 bytes, a number's high byte first: TXFN 2, type, RXFN 2, ACK,
// ACK-valid, TX_TS 8, seconds, TS-applies, the message's kind, its numbers 2 each. Each field has more room than on the
// wire, so that one that is too large can be given.
use crate::messages::Message;
use counts::{Rxfn, Txfn};
use fast_channel::FastChannel;
use header::{Fields, FrameKind, Header};
use outcome::Malformed;
use refusals::Refusal;
use vectors::record;

// Every field of a header.
pub fn bytes(header: Header) -> [u8; 24] {
    let fields = header.fields;
    let message = Message::from(fields.message);
    let [first, second, third] = message.numbers;
    let mut bytes = [0u8; 24];
    bytes[0..2].copy_from_slice(&header.txfn.0.to_be_bytes());
    bytes[2] = u8::from(header.kind);
    bytes[3..5].copy_from_slice(&fields.rxfn.0.to_be_bytes());
    bytes[5] = u8::from(fields.ack);
    bytes[6] = u8::from(fields.valid);
    bytes[7..15].copy_from_slice(&fields.stamp.to_be_bytes());
    bytes[15] = fields.seconds;
    bytes[16] = fields.applies;
    bytes[17] = message.kind;
    bytes[18..20].copy_from_slice(&first.to_be_bytes());
    bytes[20..22].copy_from_slice(&second.to_be_bytes());
    bytes[22..24].copy_from_slice(&third.to_be_bytes());
    bytes
}

// The header of 24 bytes. What no header has of them is lost: `front` tells where something is.
pub fn header(bytes: &[u8; 24]) -> Header {
    Header {
        txfn: Txfn(u16::from_be_bytes([bytes[0], bytes[1]])),
        kind: FrameKind::from(bytes[2]),
        fields: Fields {
            rxfn: Rxfn(u16::from_be_bytes([bytes[3], bytes[4]])),
            ack: bytes[5] != 0,
            valid: bytes[6] != 0,
            stamp: u64::from_be_bytes([
                bytes[7], bytes[8], bytes[9], bytes[10], bytes[11], bytes[12], bytes[13], bytes[14],
            ]),
            seconds: bytes[15],
            applies: bytes[16],
            message: FastChannel::from(Message {
                kind: bytes[17],
                numbers: [
                    u16::from_be_bytes([bytes[18], bytes[19]]),
                    u16::from_be_bytes([bytes[20], bytes[21]]),
                    u16::from_be_bytes([bytes[22], bytes[23]]),
                ],
            }),
        },
    }
}

// The header in the first 24 bytes of a body, and what stands behind it. Bytes that are no header's, so that its bytes are others, are malformed.
pub fn front(body: &[u8]) -> Result<(Header, &[u8]), Malformed> {
    let (given, behind) = record::front::<24>(body)?;
    let header = header(&given);
    if bytes(header) != given {
        return Err(Malformed);
    }
    Ok((header, behind))
}

// What a call answers that reads a header, in 25 bytes: the refusal's number, 0 for none, and every field of the header, all 0 where it is refused.
pub fn answer(found: Result<Header, Refusal>) -> [u8; 25] {
    let mut answer = [0u8; 25];
    match found {
        Ok(header) => answer[1..].copy_from_slice(&bytes(header)),
        Err(refusal) => answer[0] = u8::from(refusal),
    }
    answer
}
