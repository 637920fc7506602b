// The symbols that C links: each is the function of that name in the library `taqwelim`, called as it came. include/taqwelim.h declares them.
// Each is written out beside its twin in the library: C links these by name, and only the archive exports them, not every program that uses the library.
#![tactic(auto)]

ghost use Rattle.taqwelim.specs.Calls.{FreshSenderCall, PutCall, WaitingCall, NextCall, FreshReceiverCall, OpenCall, RepairCall, ApplyCall};
ghost use Rattle.taqwelim.specs.Calls.{EntryCall, PacketCall, CodeCall, ReadCall, LevelCall};

use flat::headers::{FlatFields, FlatHeader};
use flat::states::{FlatReceiver, FlatSender};
use flat::{
    FlatApply, FlatCode, FlatEntry, FlatNext, FlatOpen, FlatPacket, FlatPut, FlatRead, FlatRepair,
    FlatWaiting,
};

#[unsafe(no_mangle)]
pub extern "C" fn taqwelim_fresh_sender() -> FlatSender
    ensures { FreshSenderCall result }
{
    taqwelim::taqwelim_fresh_sender()
}

#[unsafe(no_mangle)]
pub extern "C" fn taqwelim_put(queue: &mut [u8], sender: FlatSender, packet: &[u8]) -> FlatPut
    ensures { PutCall queue.old sender packet.now result queue.new }
{
    taqwelim::taqwelim_put(queue, sender, packet)
}

#[unsafe(no_mangle)]
pub extern "C" fn taqwelim_waiting(queue: &[u8], sender: FlatSender) -> FlatWaiting
    ensures { WaitingCall queue.now sender result }
{
    taqwelim::taqwelim_waiting(queue, sender)
}

#[unsafe(no_mangle)]
pub extern "C" fn taqwelim_next_frame(
    taps: u32,
    fields: FlatFields,
    sender: FlatSender,
    queue: &mut [u8],
    out: &mut [u8],
) -> FlatNext
    ensures { NextCall taps fields sender queue.old out.old result queue.new out.new }
{
    taqwelim::taqwelim_next_frame(taps, fields, sender, queue, out)
}

#[unsafe(no_mangle)]
pub extern "C" fn taqwelim_fresh_receiver() -> FlatReceiver
    ensures { FreshReceiverCall result }
{
    taqwelim::taqwelim_fresh_receiver()
}

#[unsafe(no_mangle)]
pub extern "C" fn taqwelim_open(taps: u32, frame: &[u8], area: &mut [u8]) -> FlatOpen
    ensures { OpenCall taps frame.now area.old result area.new }
{
    taqwelim::taqwelim_open(taps, frame, area)
}

#[unsafe(no_mangle)]
pub extern "C" fn taqwelim_repair(taps: u32, part: &[u8], scratch: &mut [u8]) -> FlatRepair
    ensures { RepairCall taps part.now scratch.old result scratch.new }
{
    taqwelim::taqwelim_repair(taps, part, scratch)
}

#[unsafe(no_mangle)]
pub extern "C" fn taqwelim_apply(
    header: FlatHeader,
    area: &[u8],
    receiver: FlatReceiver,
    hold: &mut [u8],
    list: &mut [u8],
) -> FlatApply
    ensures { ApplyCall header area.now receiver hold.old list.old result hold.new list.new }
{
    taqwelim::taqwelim_apply(header, area, receiver, hold, list)
}

#[unsafe(no_mangle)]
pub extern "C" fn taqwelim_entry(list: &[u8], position: usize) -> FlatEntry
    ensures { EntryCall list.now position result }
{
    taqwelim::taqwelim_entry(list, position)
}

#[unsafe(no_mangle)]
pub extern "C" fn taqwelim_packet(list: &[u8], position: usize) -> FlatPacket
    ensures { PacketCall list.now position result }
{
    taqwelim::taqwelim_packet(list, position)
}

#[unsafe(no_mangle)]
pub extern "C" fn taqwelim_code_header(header: FlatHeader, out: &mut [u8]) -> FlatCode
    ensures { CodeCall header out.old result out.new }
{
    taqwelim::taqwelim_code_header(header, out)
}

#[unsafe(no_mangle)]
pub extern "C" fn taqwelim_read_header(bytes: &[u8]) -> FlatRead
    ensures { ReadCall bytes.now result }
{
    taqwelim::taqwelim_read_header(bytes)
}

#[unsafe(no_mangle)]
pub extern "C" fn taqwelim_level(code: u8) -> i32
    ensures { LevelCall code result }
{
    taqwelim::taqwelim_level(code)
}
