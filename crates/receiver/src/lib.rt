// The receiver: packets come out of opened frames whole and in their turn, or not at all, and the frames missed are counted (01, "Receiving").
#![tactic(auto, unfolding(refusals::specs::Table::first_of, refusals::specs::Table::by, refusals::specs::Numbers::refusal_of))]

ghost use Rattle.std.specs.Prelude.{◌≡◌, cond, eqb};
ghost use Rattle.refusals.specs.Numbers.{judged_by};
ghost use Rattle.refusals.specs.Table.{first_of};
ghost use Rattle.link.specs.Link.{missed};
ghost use Rattle.receiver.specs.Applying.{fresh_receiver, expected_number, pieces_of, are_sized};
ghost use Rattle.receiver.specs.Applying.{buffers_table, area_table, opened_table, ApplyOutcome};

use basics::sizes;
use counts::Txfn;
use header::{FrameKind, Header, coding};
use joining::fitting;
use refusals::Refusal;

// The number that the next frame should have, none before the first frame; and how many bytes of the hold are held.
#[derive(Clone, Copy)]
pub struct Receiver {
    pub expected: Option<Txfn>,
    pub held: usize,
}

impl Receiver {
    // None is expected, and nothing is held.
    pub fn fresh() -> Receiver
        ensures { result ≡ fresh_receiver }
    {
        Receiver {
            expected: None,
            held: 0,
        }
    }
}

// How many frames were missed, how many packets the frame completed, how many bytes of the list they take, and the receiver after the frame.
#[derive(Clone, Copy)]
pub struct Applied {
    pub missed: u16,
    pub packets: usize,
    pub listed: usize,
    pub receiver: Receiver,
}

// How many frames are missing before one with this number.
fn missed_before(expected: Option<Txfn>, txfn: Txfn) -> u16
    ensures { result ≡ missed (expected_number expected) txfn.0 }
{
    match expected {
        None => 0,
        Some(number) => txfn.missed(number),
    }
}

// How many bytes are still held after frames were missed.
fn held_after(missed: u16, held: usize) -> usize
    ensures { result ≡ cond (eqb missed 0) held 0 }
{
    if missed == 0 { held } else { 0 }
}

// Whether area, hold and list have their sizes.
fn are_sized(area: &[u8], hold: &[u8], list: &[u8]) -> bool
    ensures { result ≡ are_sized area.now hold.now list.now }
{
    area.len() == sizes::AREA_SIZE
        && hold.len() == sizes::HOLD_SIZE
        && sizes::LIST_SIZE <= list.len()
}

// Refusals: 2, 3.
fn judge_buffers(area: &[u8], held: usize, hold: &[u8], list: &[u8]) -> Result<(), Refusal>
    ensures { result ≡ judged_by (first_of (buffers_table area.now held hold.now list.now)) }
{
    if !are_sized(area, hold, list) {
        return Err(Refusal::Length);
    }
    if sizes::MOST_HELD < held {
        return Err(Refusal::State);
    }
    Ok(())
}

// Refusals: 14, 15. Only a DATA area is looked into.
fn judge_area(kind: FrameKind, area: &[u8], held: &[u8]) -> Result<(), Refusal>
    ensures { result ≡ judged_by (first_of (area_table held.now (pieces_of kind area.now))) }
{
    if kind != FrameKind::Data {
        return Ok(());
    }
    if !packing::is_allowed(area) {
        return Err(Refusal::Packing);
    }
    if !fitting::first_fits(area, held) {
        return Err(Refusal::TooLong);
    }
    Ok(())
}

// Refusals: 11, 14, 15. That TXFN fits in 16 bits is not tested, for its type has no more.
fn judge_opened(header: Header, area: &[u8], held: &[u8]) -> Result<(), Refusal>
    ensures { result ≡ judged_by (first_of (opened_table header area.now held.now)) }
{
    if !coding::fields_fit(header.fields) {
        return Err(Refusal::FieldRule);
    }
    judge_area(header.kind, area, held)
}

// Applies an opened frame: its packets go to the front of the list, and what is then held stands at the front of the hold. The number after the frame's own
// is expected then. Refusals: 2, 3, 11, 14, 15.
pub fn apply(
    header: Header,
    area: &[u8],
    receiver: Receiver,
    hold: &mut [u8],
    list: &mut [u8],
) -> Result<Applied, Refusal>
    ensures { ApplyOutcome header area.now receiver hold.old list.old result hold.new list.new }
{
    judge_buffers(area, receiver.held, hold, list)?;
    let missed = missed_before(receiver.expected, header.txfn);
    let held = held_after(missed, receiver.held);
    // No `?`: what a refused frame is answered stands here, where an edit that must fail changes it.
    match judge_opened(header, area, &hold[..held]) {
        Ok(()) => {}
        Err(refusal) => return Err(refusal),
    }
    let next = header.txfn.next();
    if header.kind != FrameKind::Data {
        return Ok(Applied {
            missed,
            packets: 0,
            listed: 0,
            receiver: Receiver {
                expected: Some(next),
                held,
            },
        });
    }
    let joined = joining::join(area, held, hold, list);
    Ok(Applied {
        missed,
        packets: joined.packets,
        listed: joined.listed,
        receiver: Receiver {
            expected: Some(next),
            held: joined.held,
        },
    })
}
