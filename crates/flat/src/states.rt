// The two states. Any three numbers are a sender's, which the library judges; numbers that are no receiver's are given a full hold, which it refuses (3).
ghost use Rattle.std.specs.Prelude.{◌≡◌};
ghost use Rattle.flat.specs.States.{sender_of, flat_sender, is_receiver, expected_of, held_of, receiver_of, flat_receiver};

use basics::sizes;
use counts::Txfn;
use receiver::Receiver;
use sender::Sender;

// For C, and so beside `Sender`: `repr(C)`, and the next number as it is.
#[repr(C)]
#[derive(Clone, Copy)]
pub struct FlatSender {
    pub start: usize,
    pub used: usize,
    pub next: u16,
}

impl From<FlatSender> for Sender {
    ghost from_gives = { λ flat sender. sender ≡ sender_of flat };

    fn from(flat: FlatSender) -> Sender {
        Sender {
            start: flat.start,
            used: flat.used,
            next: Txfn(flat.next),
        }
    }
}

impl From<Sender> for FlatSender {
    ghost from_gives = { λ sender flat. flat ≡ flat_sender sender };

    fn from(sender: Sender) -> FlatSender {
        FlatSender {
            start: sender.start,
            used: sender.used,
            next: sender.next.0,
        }
    }
}

// For C, and so beside `Receiver`: C has no `Option`, and `expects` tells whether a number is expected.
#[repr(C)]
#[derive(Clone, Copy)]
pub struct FlatReceiver {
    pub held: usize,
    pub expected: u16,
    pub expects: u8,
}

#[tactic(auto, unfolding(crate::specs::States::is_receiver))]
fn is_receiver(flat: FlatReceiver) -> bool
    ensures { result ≡ is_receiver flat }
{
    match flat.expects {
        0 => flat.expected == 0,
        1 => true,
        _ => false,
    }
}

fn expected_of(flat: FlatReceiver) -> Option<Txfn>
    ensures { result ≡ expected_of flat }
{
    if flat.expects == 0 {
        None
    } else {
        Some(Txfn(flat.expected))
    }
}

#[tactic(auto, unfolding(crate::specs::States::held_of))]
fn held_of(flat: FlatReceiver) -> usize
    ensures { result ≡ held_of flat }
{
    if is_receiver(flat) {
        flat.held
    } else {
        sizes::HOLD_SIZE
    }
}

impl From<FlatReceiver> for Receiver {
    ghost from_gives = { λ flat receiver. receiver ≡ receiver_of flat };

    fn from(flat: FlatReceiver) -> Receiver {
        Receiver {
            expected: expected_of(flat),
            held: held_of(flat),
        }
    }
}

impl From<Receiver> for FlatReceiver {
    ghost from_gives = { λ receiver flat. flat ≡ flat_receiver receiver };

    fn from(receiver: Receiver) -> FlatReceiver {
        match receiver.expected {
            None => FlatReceiver {
                held: receiver.held,
                expected: 0,
                expects: 0,
            },
            Some(number) => FlatReceiver {
                held: receiver.held,
                expected: number.0,
                expects: 1,
            },
        }
    }
}
