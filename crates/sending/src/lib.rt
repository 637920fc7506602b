// The next frame: what waits in the ring goes out frame by frame (01, "Next frame"; 02, M-105).
#![tactic(auto)]

ghost use Rattle.std.specs.Prelude.{◌≡◌, cond, eqb};
ghost use Rattle.basics.specs.Counts.{next_txfn};
ghost use Rattle.header.specs.declared.FrameKind.TheVariants.{Idle, Data};
ghost use Rattle.refusals.specs.Numbers.{judged_by};
ghost use Rattle.sending.specs.Next.{next_refusal, NextOutcome};

use basics::sizes;
use header::{Fields, FrameKind, Header};
use refusals::Refusal;
use sender::{Sender, filling};

// The sender after a frame, and the type of the frame.
#[derive(Clone, Copy)]
pub struct Sent {
    pub sender: Sender,
    pub kind: FrameKind,
}

// Refusals: 1, 2, 3, 6.
#[tactic(auto, unfolding(crate::specs::Next::next_refusal, sender::specs::Waiting::waiting_refusal, refusals::specs::Table::first_of, refusals::specs::Table::by, refusals::specs::Numbers::refusal_of))]
fn judge(taps: u32, fields: Fields, sender: Sender, queue: &[u8], out: &[u8]) -> Result<(), Refusal>
    ensures { result ≡ judged_by (next_refusal taps fields sender.start sender.used queue.now out.now) }
{
    if !scrambler::are_taps(taps) {
        return Err(Refusal::Taps);
    }
    if out.len() < sizes::FRAME_SIZE {
        return Err(Refusal::Length);
    }
    sender.judge(queue)?;
    if !header::coding::fields_fit(fields) {
        return Err(Refusal::Field);
    }
    Ok(())
}

// DATA where a byte waits.
fn kind_for(used: usize) -> FrameKind
    ensures { result ≡ cond (eqb used 0) Idle Data }
{
    if used == 0 {
        FrameKind::Idle
    } else {
        FrameKind::Data
    }
}

// The sender after a frame: what is left waits, and TXFN steps for every type.
fn sender_after(sender: Sender, left: Sender) -> Sender
    ensures { (result.start ≡ left.start) × (result.used ≡ left.used) × (result.next.0 ≡ next_txfn sender.next.0) }
{
    let next = sender.next.next();
    Sender { next, ..left }
}

// Builds the next frame at the front of out, and takes what it carries off the ring. TXFN steps for every type. Refusals: 1, 2, 3, 6.
#[tactic(auto, using(crate::proofs::Sending::next_judged), unfolding(refusals::specs::Table::by))]
pub fn next_frame(
    taps: u32,
    fields: Fields,
    sender: Sender,
    queue: &mut [u8],
    out: &mut [u8],
) -> Result<Sent, Refusal>
    ensures { NextOutcome taps fields sender queue.old out.old result queue.new out.new }
{
    judge(taps, fields, sender, queue, out)?;
    let mut area = [0; sizes::AREA_SIZE];
    let filled = filling::fill(queue, sender, &mut area);
    let left = filling::free_front(queue, sender, filled);
    let header = Header {
        txfn: sender.next,
        kind: kind_for(sender.used),
        fields,
    };
    frame::build(taps, header, &area, out);
    Ok(Sent {
        sender: sender_after(sender, left),
        kind: header.kind,
    })
}
