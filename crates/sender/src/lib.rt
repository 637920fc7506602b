// The sender: packets are put into a lent ring of 32,768 bytes (01, "Queue"; 02, M-105), and what waits there is counted. `filling` takes packets off the
// ring again for a frame.
#![tactic(auto)]

pub mod filling;

ghost use Rattle.std.specs.Prelude.{◌≡◌};
ghost use Rattle.refusals.specs.Numbers.{judged_by};
ghost use Rattle.sender.specs.Put.{fresh_sender, put_refusal, PutOutcome};
ghost use Rattle.sender.specs.Waiting.{waiting_refusal, WaitingOutcome};

use basics::sizes;
use counts::Txfn;
use refusals::Refusal;

// Where the waiting packets begin in the ring, how many of its bytes they use, and the number of the next frame. The ring's buffer goes beside it: it is lent
// for one call, and the state is given back by value, to C too.
#[derive(Clone, Copy)]
pub struct Sender {
    pub start: usize,
    pub used: usize,
    pub next: Txfn,
}

impl Sender {
    // Nothing waits, and the first frame is frame 0.
    pub fn fresh() -> Sender
        ensures { result ≡ fresh_sender }
    {
        Sender {
            start: 0,
            used: 0,
            next: Txfn(0),
        }
    }

    // Judges the ring, as each call on it does. Refusals: 2, 3.
    #[tactic(auto, unfolding(crate::specs::Waiting::waiting_refusal, refusals::specs::Table::first_of, refusals::specs::Table::by, refusals::specs::Numbers::refusal_of))]
    pub fn judge(self, queue: &[u8]) -> Result<(), Refusal>
        ensures { result ≡ judged_by (waiting_refusal queue.now self.start self.used) }
    {
        if queue.len() != sizes::QUEUE_SIZE {
            return Err(Refusal::Length);
        }
        if !marks::is_ring_whole(queue, self.start, self.used) {
            return Err(Refusal::State);
        }
        Ok(())
    }
}

// Refusals: 2, 3, 4, 5.
#[tactic(auto, using(crate::proofs::Judging::ring_judged), unfolding(crate::specs::Put::put_refusal, crate::specs::Waiting::waiting_refusal, refusals::specs::Table::first_of, refusals::specs::Table::by, refusals::specs::Numbers::refusal_of))]
fn judge_put(queue: &[u8], sender: Sender, packet: &[u8]) -> Result<(), Refusal>
    ensures { result ≡ judged_by (put_refusal queue.now sender.start sender.used packet.now) }
{
    sender.judge(queue)?;
    if packet.is_empty() || sizes::MOST_PACKET < packet.len() {
        return Err(Refusal::PacketLength);
    }
    if sizes::QUEUE_SIZE - sender.used < 2 + packet.len() {
        return Err(Refusal::NoRoom);
    }
    Ok(())
}

// Puts a packet behind those that wait, and touches nothing else. Refusals: 2, 3, 4, 5.
#[tactic(auto, using(crate::proofs::Putting::put_judged), unfolding(refusals::specs::Table::by))]
pub fn put(queue: &mut [u8], sender: Sender, packet: &[u8]) -> Result<Sender, Refusal>
    ensures { PutOutcome queue.old sender packet.now result queue.new }
{
    judge_put(queue, sender, packet)?;
    let length = packet.len();
    let mark = marks::bytes_of(length);
    ring::write_at(queue, sender.start, sender.used, &mark);
    ring::write_at(queue, sender.start, sender.used + 2, packet);
    Ok(Sender {
        used: sender.used + 2 + length,
        ..sender
    })
}

// The packets that wait, one that is begun among them, and how many bytes of them wait.
#[derive(Clone, Copy)]
pub struct Counted {
    pub packets: usize,
    pub bytes: usize,
}

// How much waits in the ring. Two bytes of what is used are each packet's mark. Refusals: 2, 3.
#[tactic(auto, using(crate::proofs::Judging::ring_judged, marks::proofs::Counting::used_counted), unfolding(crate::specs::Waiting::waiting_answer, refusals::specs::Table::by))]
pub fn waiting(queue: &[u8], sender: Sender) -> Result<Counted, Refusal>
    ensures { WaitingOutcome queue.now sender result }
{
    sender.judge(queue)?; // only a whole ring's marks can be counted
    let packets = marks::packets_waiting(queue, sender.start, sender.used);
    Ok(Counted {
        packets,
        bytes: sender.used - 2 * packets,
    })
}
