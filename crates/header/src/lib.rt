// The header of a frame: its fields, and the 16 bytes that are sent for them (source 000, 2.6.3.3).
#![tactic(auto)]

pub mod coding;

ghost use Rattle.std.specs.Prelude.{◌≡◌, ◌≤◌};
ghost use Rattle.refusals.specs.Numbers.{judged_by};
ghost use Rattle.header.specs.Calls.{code_refusal, CodeHeaderOutcome};
ghost use Rattle.header.specs.Header.{kind_number, kind_of};

use counts::{Rxfn, Txfn};
use fast_channel::FastChannel;
use refusals::Refusal;

// FRAME_TYPE, from 0 to 3. Type 2 is MGMT in the standard, and type 3 is reserved there.
#[derive(Clone, Copy, Debug, PartialEq, Eq)]
pub enum FrameKind {
    Idle = 0,
    Data = 1,
    Type2 = 2,
    Type3 = 3,
}

// The two bits of FRAME_TYPE.
impl From<FrameKind> for u8 {
    ghost from_gives = { λ kind number. (number ≡ kind_number kind) × (number ≤ 3) };

    fn from(kind: FrameKind) -> u8 {
        kind as u8
    }
}

// A number above 3 is taken for 3, so that this is no `TryFrom`: a header has two bits, and `flat` gives a greater number fields that no call takes.
impl From<u8> for FrameKind {
    ghost from_gives = { λ number kind. kind ≡ kind_of number };

    #[tactic(auto, unfolding(crate::specs::Header::kind_of))]
    fn from(number: u8) -> FrameKind {
        match number {
            0 => FrameKind::Idle,
            1 => FrameKind::Data,
            2 => FrameKind::Type2,
            _ => FrameKind::Type3,
        }
    }
}

// What a caller gives for a frame: every field but TXFN and the type.
#[derive(Clone, Copy, Debug, PartialEq, Eq)]
pub struct Fields {
    // 0 where `valid` is false.
    pub rxfn: Rxfn,
    pub ack: bool,
    // ACK-valid.
    pub valid: bool,
    // TX_TS, 40 bits.
    pub stamp: u64,
    // TOD_SECONDS, 6 bits.
    pub seconds: u8,
    // TS-applies, 3 bits.
    pub applies: u8,
    pub message: FastChannel,
}

#[derive(Clone, Copy, Debug, PartialEq, Eq)]
pub struct Header {
    pub txfn: Txfn,
    pub kind: FrameKind,
    pub fields: Fields,
}

fn judge(header: Header, out: &[u8]) -> Result<(), Refusal>
    ensures { result ≡ judged_by (code_refusal header out.now) }
{
    if out.len() != 16 {
        return Err(Refusal::Length);
    }
    if !coding::fields_fit(header.fields) {
        return Err(Refusal::Field);
    }
    Ok(())
}

// Codes a header with any TXFN, of any type, into exactly 16 lent bytes. Refusals: 2, 6.
pub fn code_header(header: Header, out: &mut [u8]) -> Result<(), Refusal>
    ensures { CodeHeaderOutcome header out.old result out.new }
{
    judge(header, out)?;
    out.copy_from_slice(&coding::header_bytes(header));
    Ok(())
}
