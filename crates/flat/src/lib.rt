// The library's answers as C has them: the refusal's number, 0 for none, beside the values. A refusal's answer has the state as it was given, and zeros
// elsewhere. States, headers and messages have a module each. What C can get wrong becomes something that the library refuses by the table's number, so that
// the order of the refusals is the library's own.
#![tactic(auto)]

pub mod headers;
pub mod messages;
pub mod states;

ghost use Rattle.std.specs.Prelude.{◌≡◌};
ghost use Rattle.flat.specs.Answers.{flat_put, flat_waiting, flat_next, flat_open, flat_repair, flat_apply, flat_code, flat_read, flat_entry, flat_packet};

use header::Header;
use headers::FlatHeader;
use list::Place;
use opening::Opened;
use receiver::Applied;
use refusals::Refusal;
use sender::{Counted, Sender};
use sending::Sent;
use states::{FlatReceiver, FlatSender};

// One struct for each answer, though the library has one `Result` for all: C has no `Result`, and is given the number and the values side by side.

#[repr(C)]
#[derive(Clone, Copy)]
pub struct FlatPut {
    pub sender: FlatSender,
    pub refusal: u8,
}

#[repr(C)]
#[derive(Clone, Copy, Default)]
pub struct FlatWaiting {
    pub packets: usize,
    pub bytes: usize,
    pub refusal: u8,
}

#[repr(C)]
#[derive(Clone, Copy)]
pub struct FlatNext {
    pub sender: FlatSender,
    pub kind: u8,
    pub refusal: u8,
}

#[repr(C)]
#[derive(Clone, Copy, Default)]
pub struct FlatOpen {
    pub header: FlatHeader,
    pub repaired: u8,
    pub refusal: u8,
}

#[repr(C)]
#[derive(Clone, Copy, Default)]
pub struct FlatRepair {
    pub repaired: u8,
    pub refusal: u8,
}

#[repr(C)]
#[derive(Clone, Copy)]
pub struct FlatApply {
    pub receiver: FlatReceiver,
    pub packets: usize,
    pub listed: usize,
    pub missed: u16,
    pub refusal: u8,
}

#[repr(C)]
#[derive(Clone, Copy, Default)]
pub struct FlatCode {
    pub refusal: u8,
}

#[repr(C)]
#[derive(Clone, Copy, Default)]
pub struct FlatRead {
    pub header: FlatHeader,
    pub refusal: u8,
}

#[repr(C)]
#[derive(Clone, Copy, Default)]
pub struct FlatEntry {
    pub start: usize,
    pub length: usize,
    pub next: usize,
    pub found: u8,
    pub refusal: u8,
}

// Where a packet stands in the caller's list.
#[repr(C)]
#[derive(Clone, Copy, Default)]
pub struct FlatPacket {
    pub start: usize,
    pub length: usize,
}

// The three answers that have a state are given the one before the call too, and so are no `From`.

pub fn flat_put(given: FlatSender, answer: Result<Sender, Refusal>) -> FlatPut
    ensures { result ≡ flat_put given answer }
{
    match answer {
        Ok(sender) => FlatPut {
            sender: FlatSender::from(sender),
            refusal: 0,
        },
        Err(refusal) => FlatPut {
            sender: given,
            refusal: u8::from(refusal),
        },
    }
}

pub fn flat_next(given: FlatSender, answer: Result<Sent, Refusal>) -> FlatNext
    ensures { result ≡ flat_next given answer }
{
    match answer {
        Ok(sent) => FlatNext {
            sender: FlatSender::from(sent.sender),
            kind: u8::from(sent.kind),
            refusal: 0,
        },
        Err(refusal) => FlatNext {
            sender: given,
            kind: 0,
            refusal: u8::from(refusal),
        },
    }
}

pub fn flat_apply(given: FlatReceiver, answer: Result<Applied, Refusal>) -> FlatApply
    ensures { result ≡ flat_apply given answer }
{
    match answer {
        Ok(applied) => FlatApply {
            receiver: FlatReceiver::from(applied.receiver),
            packets: applied.packets,
            listed: applied.listed,
            missed: applied.missed,
            refusal: 0,
        },
        Err(refusal) => FlatApply {
            receiver: given,
            packets: 0,
            listed: 0,
            missed: 0,
            refusal: u8::from(refusal),
        },
    }
}

impl From<Result<Counted, Refusal>> for FlatWaiting {
    ghost from_gives = { λ answer flat. flat ≡ flat_waiting answer };

    fn from(answer: Result<Counted, Refusal>) -> FlatWaiting {
        match answer {
            Ok(counted) => FlatWaiting {
                packets: counted.packets,
                bytes: counted.bytes,
                refusal: 0,
            },
            Err(refusal) => FlatWaiting {
                refusal: u8::from(refusal),
                ..FlatWaiting::default()
            },
        }
    }
}

impl From<Result<Opened, Refusal>> for FlatOpen {
    ghost from_gives = { λ answer flat. flat ≡ flat_open answer };

    fn from(answer: Result<Opened, Refusal>) -> FlatOpen {
        match answer {
            Ok(opened) => FlatOpen {
                header: FlatHeader::from(opened.header),
                repaired: opened.repaired,
                refusal: 0,
            },
            Err(refusal) => FlatOpen {
                refusal: u8::from(refusal),
                ..FlatOpen::default()
            },
        }
    }
}

// The count of wrong bytes.
impl From<Result<u8, Refusal>> for FlatRepair {
    ghost from_gives = { λ answer flat. flat ≡ flat_repair answer };

    fn from(answer: Result<u8, Refusal>) -> FlatRepair {
        match answer {
            Ok(repaired) => FlatRepair {
                repaired,
                refusal: 0,
            },
            Err(refusal) => FlatRepair {
                refusal: u8::from(refusal),
                ..FlatRepair::default()
            },
        }
    }
}

impl From<Result<(), Refusal>> for FlatCode {
    ghost from_gives = { λ answer flat. flat ≡ flat_code answer };

    fn from(answer: Result<(), Refusal>) -> FlatCode {
        match answer {
            Ok(()) => FlatCode::default(),
            Err(refusal) => FlatCode {
                refusal: u8::from(refusal),
            },
        }
    }
}

impl From<Result<Header, Refusal>> for FlatRead {
    ghost from_gives = { λ answer flat. flat ≡ flat_read answer };

    fn from(answer: Result<Header, Refusal>) -> FlatRead {
        match answer {
            Ok(header) => FlatRead {
                header: FlatHeader::from(header),
                refusal: 0,
            },
            Err(refusal) => FlatRead {
                refusal: u8::from(refusal),
                ..FlatRead::default()
            },
        }
    }
}

impl From<Result<Option<Place>, Refusal>> for FlatEntry {
    ghost from_gives = { λ answer flat. flat ≡ flat_entry answer };

    fn from(answer: Result<Option<Place>, Refusal>) -> FlatEntry {
        match answer {
            Ok(Some(place)) => FlatEntry {
                start: place.start,
                length: place.length,
                next: place.next,
                found: 1,
                refusal: 0,
            },
            Ok(None) => FlatEntry::default(),
            Err(refusal) => FlatEntry {
                refusal: u8::from(refusal),
                ..FlatEntry::default()
            },
        }
    }
}

impl From<Result<Option<Place>, Refusal>> for FlatPacket {
    ghost from_gives = { λ answer flat. flat ≡ flat_packet answer };

    fn from(answer: Result<Option<Place>, Refusal>) -> FlatPacket {
        match answer {
            Ok(Some(place)) => FlatPacket {
                start: place.start,
                length: place.length,
            },
            _ => FlatPacket::default(),
        }
    }
}
