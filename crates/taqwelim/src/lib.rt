// The calls for C: each is one call of the library, on what C's numbers stand for, and its answer as numbers. include/taqwelim.h declares them.
#![tactic(auto)]

ghost use Rattle.taqwelim.specs.Calls.{FreshSenderCall, PutCall, WaitingCall, NextCall, FreshReceiverCall, OpenCall, RepairCall, ApplyCall};
ghost use Rattle.taqwelim.specs.Calls.{EntryCall, PacketCall, CodeCall, ReadCall, LevelCall};

use flat::headers::{FlatFields, FlatHeader};
use flat::states::{FlatReceiver, FlatSender};
use flat::{
    FlatApply, FlatCode, FlatEntry, FlatNext, FlatOpen, FlatPacket, FlatPut, FlatRead, FlatRepair,
    FlatWaiting,
};
use header::{Fields, Header};
use receiver::Receiver;
use sender::Sender;

pub fn taqwelim_fresh_sender() -> FlatSender
    ensures { FreshSenderCall result }
{
    FlatSender::from(Sender::fresh())
}

// Refusals: 2, 3, 4, 5.
pub fn taqwelim_put(queue: &mut [u8], sender: FlatSender, packet: &[u8]) -> FlatPut
    ensures { PutCall queue.old sender packet.now result queue.new }
{
    let answer = sender::put(queue, Sender::from(sender), packet);
    flat::flat_put(sender, answer)
}

// Refusals: 2, 3.
pub fn taqwelim_waiting(queue: &[u8], sender: FlatSender) -> FlatWaiting
    ensures { WaitingCall queue.now sender result }
{
    FlatWaiting::from(sender::waiting(queue, Sender::from(sender)))
}

// Refusals: 1, 2, 3, 6.
pub fn taqwelim_next_frame(
    taps: u32,
    fields: FlatFields,
    sender: FlatSender,
    queue: &mut [u8],
    out: &mut [u8],
) -> FlatNext
    ensures { NextCall taps fields sender queue.old out.old result queue.new out.new }
{
    let answer = sending::next_frame(taps, Fields::from(fields), Sender::from(sender), queue, out);
    flat::flat_next(sender, answer)
}

pub fn taqwelim_fresh_receiver() -> FlatReceiver
    ensures { FreshReceiverCall result }
{
    FlatReceiver::from(Receiver::fresh())
}

// Refusals: 1, 2, 7 to 9, 11 to 13.
pub fn taqwelim_open(taps: u32, frame: &[u8], area: &mut [u8]) -> FlatOpen
    ensures { OpenCall taps frame.now area.old result area.new }
{
    FlatOpen::from(opening::open(taps, frame, area))
}

// Refusals: 1, 2, 8, 12. The repaired bytes are the part itself where the count is 0, and otherwise the first 2,072 of the scratch.
pub fn taqwelim_repair(taps: u32, part: &[u8], scratch: &mut [u8]) -> FlatRepair
    ensures { RepairCall taps part.now scratch.old result scratch.new }
{
    FlatRepair::from(repairing::repair(taps, part, scratch))
}

// Refusals: 2, 3, 11, 14, 15.
pub fn taqwelim_apply(
    header: FlatHeader,
    area: &[u8],
    receiver: FlatReceiver,
    hold: &mut [u8],
    list: &mut [u8],
) -> FlatApply
    ensures { ApplyCall header area.now receiver hold.old list.old result hold.new list.new }
{
    let opened = Header::from(header);
    let answer = receiver::apply(opened, area, Receiver::from(receiver), hold, list);
    flat::flat_apply(receiver, answer)
}

// Refusal: 16.
pub fn taqwelim_entry(list: &[u8], position: usize) -> FlatEntry
    ensures { EntryCall list.now position result }
{
    FlatEntry::from(list::entry(list, position))
}

// Where the packet stands in the caller's list, for C has no slices.
pub fn taqwelim_packet(list: &[u8], position: usize) -> FlatPacket
    ensures { PacketCall list.now position result }
{
    FlatPacket::from(list::entry(list, position))
}

// Refusals: 2, 6.
pub fn taqwelim_code_header(header: FlatHeader, out: &mut [u8]) -> FlatCode
    ensures { CodeCall header out.old result out.new }
{
    FlatCode::from(header::code_header(Header::from(header), out))
}

// Refusals: 2, 9, 11.
pub fn taqwelim_read_header(bytes: &[u8]) -> FlatRead
    ensures { ReadCall bytes.now result }
{
    FlatRead::from(header_reading::read_header(bytes))
}

pub fn taqwelim_level(code: u8) -> i32
    ensures { LevelCall code result }
{
    fast_channel::level(code)
}
