// Marks: the two bytes, high byte first, before a packet in the queue and in the list and before a record in an area. And whether the queue's ring is whole,
// judged mark by mark.
#![tactic(auto)]

pub mod records;

ghost use Rattle.std.specs.Prelude.{◌≡◌, ◌+◌, ◌*◌, ◌<◌, ◌≤◌, true, ◌&&◌, [], length, drop, nat_le, slice_index, ℕ, List};
ghost use Rattle.basics.specs.Sizes.{queue_size};
ghost use Rattle.link.specs.Store.{marked};
ghost use Rattle.basics.specs.Lists.{is_some};
ghost use Rattle.link.specs.Parsing.{mark_at, packets_in, is_whole};
ghost use Rattle.ring.specs.Ring.{round_from};
ghost use Rattle.marks.specs.Queue.{used_in, is_ring_whole, queue_in, waiting_in, packet_count};
ghost use Rattle.marks.specs.Walk.{behind_packet, over_end, LeadsOn};

use basics::sizes;
use std::marker::Model;

// The two bytes of a mark, high byte first.
pub fn bytes_of(mark: usize) -> [u8; 2]
    requires { mark < 65536 }
    ensures { result ≡ marked mark [] }
{
    (mark as u16).to_be_bytes()
}

// The mark at an index.
pub fn mark_at(bytes: &[u8], at: usize) -> usize
    requires { at + 2 ≤ length bytes.now }
    ensures { result ≡ slice_index bytes.now at * 256 + slice_index bytes.now (at + 1) }
{
    usize::from(u16::from_be_bytes([bytes[at], bytes[at + 1]]))
}

// The mark that stands in a ring, `at` bytes behind its start. The end of the buffer may part its two bytes.
pub fn mark_round(queue: &[u8], start: usize, at: usize) -> usize
    requires { (start ≤ length queue.now) × (at + 2 ≤ length queue.now) }
    ensures { result ≡ mark_at (drop at (round_from start queue.now)) }
{
    let near = queue.len() - start; // from the start to the buffer's end
    if at + 1 < near {
        return mark_at(queue, start + at);
    }
    if near <= at {
        return mark_at(queue, at - near);
    }
    usize::from(u16::from_be_bytes([queue[start + at], queue[0]]))
}

// Whether a length is 1 to `most`, and as many of `total` bytes stand behind the mark at an index.
pub fn is_length(total: usize, at: usize, n: usize, most: usize) -> bool
    requires { at + 2 ≤ total }
    ensures { result ≡ (nat_le 1 n && nat_le n most && nat_le (at + 2 + n) total) }
{
    1 <= n && n <= most && n <= total - at - 2
}

// Where the walk goes on from a mark that says n: behind its packet, or nowhere, which is behind every ring, where n is no length. One test judges 1 to 9,000,
// for 0 wraps to the greatest number.
fn behind_packet(at: usize, n: usize, nowhere: usize) -> usize
    requires { at < queue_size }
    ensures { result ≡ behind_packet at n nowhere }
{
    let less = n.wrapping_sub(1);
    if sizes::MOST_PACKET <= less {
        return nowhere;
    }
    at + 3 + less
}

// Goes from mark to mark of a stretch while both bytes of one stand in it, and gives the place reached. Whether that is the end of what waits is asked once,
// there, and not for each packet. (With a constant for nowhere the compiler's loop is longer by an instruction.) A mark tells where the next stands, so no
// index is counted that a `for` could count.
fn walk_stretch(stretch: &[u8], from: usize) -> usize
    requires { (1 ≤ length stretch.now) × (length stretch.now ≤ queue_size) }
    ensures { LeadsOn stretch.now from result × (length stretch.now ≤ result + 1) }
{
    let last = stretch.len() - 1;
    let nowhere = stretch.len() + sizes::QUEUE_SIZE;
    let mut at = from;
    while at < last {
        at = behind_packet(at, mark_at(stretch, at), nowhere);
    }
    at
}

// A place behind every ring, and no Option: so one comparison ends the walk, at a length that is none as at the end of what is walked.
const NOWHERE: usize = 2 * sizes::QUEUE_SIZE;

// The used bytes of a ring, which stand round in its buffer from a start on; to the contracts they are a list. It is made where start and count have been
// judged: what other crates call takes the three apart, for the start and the count are the sender's, and change while the queue stays.
#[derive(Drop)]
struct Ring<'a> {
    buffer: &'a [u8],
    start: usize,
    used: usize,
}

impl<'a> Model for Ring<'a> {
    ghost Value = { List ℕ };

    ghost view = { λ ring. used_in ring.buffer.now ring.start ring.used };

    ghost invariant = { λ ring. (length ring.buffer.now ≡ queue_size) × (ring.start < queue_size) × (ring.used ≤ queue_size) };
}

impl<'a> Ring<'a> {
    fn len(&self) -> usize
        ensures all { result ≡ length self.now }
        ensures most { length self.now ≤ queue_size }
    {
        self.used
    }

    fn mark(&self, at: usize) -> usize
        requires { at + 2 ≤ length self.now }
        ensures { result ≡ slice_index self.now at * 256 + slice_index self.now (at + 1) }
    {
        mark_round(self.buffer, self.start, at)
    }

    // Whether there are packets from an index to the end of the used bytes, none of them begun: up to the buffer's end, over it, and behind it.
    fn are_packets(&self, behind: usize) -> bool
        requires { (1 ≤ length self.now) × (behind ≤ length self.now) }
        ensures { result ≡ is_some (packets_in (drop behind self.now)) }
    {
        let near = sizes::QUEUE_SIZE - self.start; // from the start to the buffer's end
        if self.used <= near {
            let end = self.start + self.used;
            return walk_stretch(&self.buffer[self.start..end], behind) == self.used;
        }
        let at = over_end(
            self.buffer,
            self.start,
            walk_stretch(&self.buffer[self.start..], behind),
        );
        let far = self.used - near;
        walk_stretch(&self.buffer[..far], at - near) == far
    }

    // Whether they stand for waiting packets; only the front one may be begun.
    fn is_whole(&self) -> bool
        ensures { result ≡ is_whole self.now }
    {
        let used = self.len();
        if used < 2 {
            return used == 0;
        }
        let mark = self.mark(0);
        if mark < sizes::BEGUN_BIT {
            return self.are_packets(0);
        }
        let n = mark - sizes::BEGUN_BIT;
        is_length(used, 0, n, sizes::MOST_HELD) && self.are_packets(2 + n)
    }

    // How many packets they are, one that is begun among them: from mark to mark, without the bit that tells that one is begun. The place is a mark's and no
    // index that a `for` could count.
    fn packets(&self) -> usize
        requires { is_whole self.now ≡ true }
        ensures { result ≡ packet_count (queue_in self.now) }
    {
        let mut packets = 0;
        let mut at = 0;
        while at < self.len() {
            let mark = self.mark(at);
            at += 2 + mark % sizes::BEGUN_BIT;
            packets += 1;
        }
        packets
    }
}

// Goes on over a mark that the buffer's end parts, where the walk up to it stopped before one.
fn over_end(queue: &[u8], start: usize, at: usize) -> usize
    requires { (length queue.now ≡ queue_size) × (1 ≤ start) × (start < queue_size) }
    ensures { result ≡ over_end queue.now start at }
{
    if at < sizes::QUEUE_SIZE - start {
        return behind_packet(at, mark_round(queue, start, at), NOWHERE);
    }
    at
}

// Whether a start and a count are those of a ring, judged before any sum is made of them, and its used bytes stand for waiting packets (otherwise refusal 3).
#[tactic(auto, unfolding(crate::specs::Queue::is_ring_whole))]
pub fn is_ring_whole(queue: &[u8], start: usize, used: usize) -> bool
    requires { length queue.now ≡ queue_size }
    ensures { result ≡ is_ring_whole queue.now start used }
{
    start < sizes::QUEUE_SIZE
        && used <= sizes::QUEUE_SIZE
        && Ring {
            buffer: queue,
            start,
            used,
        }
        .is_whole()
}

// How many packets wait in a ring that is whole, one that is begun among them.
pub fn packets_waiting(queue: &[u8], start: usize, used: usize) -> usize
    requires { (length queue.now ≡ queue_size) × (is_ring_whole queue.now start used ≡ true) }
    ensures { result ≡ packet_count (waiting_in queue.now start used) }
{
    let ring = Ring {
        buffer: queue,
        start,
        used,
    };
    ring.packets()
}
