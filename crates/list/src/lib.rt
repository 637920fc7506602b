// Reading the list of packets received: the numbers of an entry, and the packet as the very bytes of the list (01, "Reading the list").
#![tactic(auto)]

ghost use Rattle.std.specs.Prelude.{◌≡◌, ◌+◌, ◌≤◌, length, unwrap_or, IfSome};
ghost use Rattle.list.specs.Entries.{length_at, EntryOutcome, PacketOutcome};

use basics::sizes;
use refusals::Refusal;

// The place and the length of a packet, and the position after it.
#[derive(Clone, Copy)]
pub struct Place {
    pub start: usize,
    pub length: usize,
    pub next: usize,
}

// The length of the packet that stands whole at a position.
fn length_at(list: &[u8], position: usize) -> Option<usize>
    ensures value { unwrap_or result 0 ≡ length_at list.now position }
    ensures inside { IfSome result (λ n. (1 ≤ n) × (position + 2 + n ≤ length list.now)) }
{
    if list.len() < 2 || list.len() - 2 < position {
        return None;
    }
    let length = marks::mark_at(list, position);
    marks::is_length(list.len(), position, length, sizes::MOST_PACKET).then_some(length)
}

// What stands at a position, as numbers; None at the list's end. Refusal: 16.
#[tactic(auto, using(crate::proofs::Calls::at_end, crate::proofs::Calls::at_refusal, crate::proofs::Calls::at_packet))]
pub fn entry(list: &[u8], position: usize) -> Result<Option<Place>, Refusal>
    ensures { EntryOutcome list.now position result }
{
    if position == list.len() {
        return Ok(None);
    }
    let length = length_at(list, position).ok_or(Refusal::ListEntry)?;
    let start = position + 2;
    Ok(Some(Place {
        start,
        length,
        next: start + length,
    }))
}

// The packet at a position, as the part of the list that holds it; an empty part at an end or a refusal.
#[tactic(auto, unfolding(crate::specs::Entries::packet_at, crate::specs::Entries::place_at))]
pub fn packet(list: &[u8], position: usize) -> &[u8]
    ensures { PacketOutcome list.now list.entry.ref_ptr position result.now result.ref_ptr }
{
    let Some(length) = length_at(list, position) else {
        return &list[0..0];
    };
    let start = position + 2;
    &list[start..start + length]
}
