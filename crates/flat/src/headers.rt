// A header's fields: bools and the kind are numbers, and a number that stands for none is refused as a field to send (6; 11 by apply).
ghost use Rattle.std.specs.Prelude.{◌≡◌};
ghost use Rattle.flat.specs.Headers.{flags_fit, sent_message, fields_where, fields_of, header_of, flat_fields, flat_header};

use crate::messages;
use crate::messages::FlatMessage;
use counts::{Rxfn, Txfn};
use fast_channel::FastChannel;
use header::{Fields, FrameKind, Header};

// For C, and so beside `Fields`: C has no enums with values, and gives a bool or a kind as any number.
#[repr(C)]
#[derive(Clone, Copy, Default)]
pub struct FlatFields {
    pub stamp: u64,
    pub rxfn: u16,
    pub ack: u8,
    pub valid: u8,
    pub seconds: u8,
    pub applies: u8,
    pub message: FlatMessage,
}

#[repr(C)]
#[derive(Clone, Copy, Default)]
pub struct FlatHeader {
    pub fields: FlatFields,
    pub txfn: u16,
    pub kind: u8,
}

// Both bools are 0 or 1.
#[tactic(auto, unfolding(crate::specs::Headers::flags_fit))]
fn flags_fit(fields: FlatFields) -> bool
    ensures { result ≡ flags_fit fields }
{
    fields.ack <= 1 && fields.valid <= 1
}

// The message to send, or one that is refused.
#[tactic(auto, unfolding(crate::specs::Headers::sent_message))]
fn sent_message(others: bool, fields: FlatFields) -> FastChannel
    ensures { result ≡ sent_message others fields }
{
    if others && flags_fit(fields) && messages::numbers_fit(fields.message) {
        messages::message_of(fields.message)
    } else {
        FastChannel::Reserved(0)
    }
}

// The fields, and with them whether what stands beside them fits.
#[tactic(auto, unfolding(crate::specs::Headers::fields_where))]
fn fields_where(others: bool, fields: FlatFields) -> Fields
    ensures { result ≡ fields_where others fields }
{
    Fields {
        rxfn: Rxfn(fields.rxfn),
        ack: fields.ack == 1,
        valid: fields.valid == 1,
        stamp: fields.stamp,
        seconds: fields.seconds,
        applies: fields.applies,
        message: sent_message(others, fields),
    }
}

impl From<FlatFields> for Fields {
    ghost from_gives = { λ flat fields. fields ≡ fields_of flat };

    fn from(flat: FlatFields) -> Fields {
        fields_where(true, flat)
    }
}

impl From<FlatHeader> for Header {
    ghost from_gives = { λ flat header. header ≡ header_of flat };

    fn from(flat: FlatHeader) -> Header {
        Header {
            txfn: Txfn(flat.txfn),
            kind: FrameKind::from(flat.kind),
            fields: fields_where(flat.kind <= 3, flat.fields),
        }
    }
}

impl From<Fields> for FlatFields {
    ghost from_gives = { λ fields flat. flat ≡ flat_fields fields };

    fn from(fields: Fields) -> FlatFields {
        FlatFields {
            stamp: fields.stamp,
            rxfn: fields.rxfn.0,
            ack: u8::from(fields.ack),
            valid: u8::from(fields.valid),
            seconds: fields.seconds,
            applies: fields.applies,
            message: FlatMessage::from(fields.message),
        }
    }
}

impl From<Header> for FlatHeader {
    ghost from_gives = { λ header flat. flat ≡ flat_header header };

    fn from(header: Header) -> FlatHeader {
        FlatHeader {
            fields: FlatFields::from(header.fields),
            txfn: header.txfn.0,
            kind: u8::from(header.kind),
        }
    }
}
