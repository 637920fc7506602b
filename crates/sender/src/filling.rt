// Taking the next frame's records off the ring: the area is filled, then what was sent is freed.
ghost use Rattle.std.specs.Prelude.{◌≡◌, true, ◌+◌, ◌≤◌, ◌<◌, length, take, drop, IfSome};
ghost use Rattle.basics.specs.Lists.{zeros};
ghost use Rattle.basics.specs.Sizes.{area_size, most_held, queue_size};
ghost use Rattle.lent.specs.Written.{written};
ghost use Rattle.link.specs.Parsing.{is_whole};
ghost use Rattle.packing.specs.Rules.{record_bytes};
ghost use Rattle.ring.specs.Ring.{round_from};
ghost use Rattle.marks.specs.Queue.{used_in};
ghost use Rattle.sender.specs.Filling.{FillOutcome, remaining, Freed};

use crate::Sender;
use basics::sizes;
use packing::Record;

// Where filling stopped in the used bytes; and of a packet that it cut, how many bytes are unsent.
#[derive(Clone, Copy)]
pub struct Filled {
    pub stop: usize,
    pub unsent: Option<usize>,
}

// Writes records of the waiting packets into an area of zeros: while one waits and 3 or more bytes remain, as much of it as fits.
pub fn fill(queue: &[u8], sender: Sender, area: &mut [u8; sizes::AREA_SIZE]) -> Filled
    requires { (sender.start ≤ length queue.now) × (sender.used ≤ length queue.now)
        × (is_whole (used_in queue.now sender.start sender.used) ≡ true) × (area.old ≡ zeros area_size) }
    ensures { FillOutcome (used_in queue.now sender.start sender.used) result area.new }
{
    let mut at = 0;
    let mut from = 0;
    // From mark to mark: no index is counted.
    while from < sender.used {
        let room = sizes::AREA_SIZE - at;
        if room < 3 {
            break;
        }
        let mark = marks::mark_round(queue, sender.start, from);
        let waiting = mark % sizes::BEGUN_BIT;
        let length = waiting.min(room - 2);
        let record = Record {
            first: mark < sizes::BEGUN_BIT,
            last: length == waiting,
            start: from + 2,
            length,
        };
        write_record(area, at, record, queue, sender.start);
        from = from + 2 + length;
        if length < waiting {
            return Filled {
                stop: from,
                unsent: Some(waiting - length),
            };
        }
        at = at + 2 + length;
    }
    Filled {
        stop: from,
        unsent: None,
    }
}

// Writes a record into the area: its mark, and its bytes, which stand `start` bytes behind the ring's start.
fn write_record(area: &mut [u8], at: usize, piece: Record, queue: &[u8], start: usize)
    requires { (at + 2 + piece.length ≤ length area.old) × (piece.length < 2048) × (start ≤ length queue.now)
        × (piece.start + piece.length ≤ length queue.now) }
    ensures { area.new ≡ written area.old at (record_bytes (record {
      first = piece.first;
      last = piece.last;
      bytes = take piece.length (drop piece.start (round_from start queue.now));
    })) }
{
    let mark = usize::from(piece.first) * sizes::FIRST_BIT
        + usize::from(piece.last) * sizes::LAST_BIT
        + piece.length;
    lent::write_at(area, at, &marks::bytes_of(mark));
    ring::copy_out(queue, start, piece.start, piece.length, area, at + 2);
}

// Frees the ring up to where filling stopped: gives the sender with what is left. A cut packet's new mark, with bit 15 "begun", goes over the two bytes before
// its rest; no other byte is written.
pub fn free_front(queue: &mut [u8], sender: Sender, filled: Filled) -> Sender
    requires { (length queue.old ≡ queue_size) × (sender.start < queue_size) × (sender.used ≤ queue_size) × (filled.stop ≤ sender.used)
        × IfSome filled.unsent (λ unsent. (unsent ≤ most_held) × (2 ≤ filled.stop)) }
    ensures { Freed queue.old sender (remaining filled.unsent (drop filled.stop (used_in queue.old sender.start sender.used))) result queue.new }
{
    match filled.unsent {
        None => Sender {
            start: (sender.start + filled.stop) % sizes::QUEUE_SIZE,
            used: sender.used - filled.stop,
            ..sender
        },
        Some(unsent) => {
            let start = (sender.start + (filled.stop - 2)) % sizes::QUEUE_SIZE;
            let mark = marks::bytes_of(sizes::BEGUN_BIT + unsent);
            ring::write_at(queue, start, 0, &mark);
            Sender {
                start,
                used: sender.used - filled.stop + 2,
                ..sender
            }
        }
    }
}
