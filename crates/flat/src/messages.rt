// A message of the fast channel: its opcode and up to three numbers. Numbers that a message does not have are 0.
ghost use Rattle.std.specs.Prelude.{◌≡◌, [], ◌∷◌};
ghost use Rattle.flat.specs.Messages.{first_most, second_most, third_most, numbers_fit, message_of, flat_message};

use fast_channel::{FastChannel, Lock};

// For C, and so beside `FastChannel`, an enum with values, which C has not.
#[repr(C)]
#[derive(Clone, Copy, Default)]
pub struct FlatMessage {
    pub opcode: u8,
    pub first: u16,
    pub second: u16,
    pub third: u16,
}

// The greatest value of each of a message's numbers, by its bits; 0 where it has no such number.
#[tactic(auto, unfolding(crate::specs::Messages::first_most, crate::specs::Messages::second_most, crate::specs::Messages::third_most))]
fn most_numbers(opcode: u8) -> [u16; 3]
    ensures { result ≡ first_most opcode ∷ second_most opcode ∷ third_most opcode ∷ [] }
{
    match opcode {
        0 | 6 => [65535, 0, 0],
        1 | 3 => [16383, 1, 0],
        2 | 4 => [255, 255, 0],
        5 => [31, 31, 63],
        _ => [0, 0, 0],
    }
}

// The opcode is one of 0 to 15, and no number is above the greatest of its place.
#[tactic(auto, unfolding(crate::specs::Messages::numbers_fit))]
pub fn numbers_fit(message: FlatMessage) -> bool
    ensures { result ≡ numbers_fit message }
{
    let [first, second, third] = most_numbers(message.opcode);
    message.opcode <= 15
        && message.first <= first
        && message.second <= second
        && message.third <= third
}

// The message, where its numbers fit; a number of one byte is cut off otherwise. No `TryFrom`: C is told of a misfit in the order of the library's refusals,
// so that what is refused has to go on as a message (`sent_message`).
#[tactic(auto, unfolding(crate::specs::Messages::message_of))]
pub fn message_of(message: FlatMessage) -> FastChannel
    ensures { result ≡ message_of message }
{
    let opcode = message.opcode;
    let first = message.first;
    let second = message.second;
    let third = message.third;
    match opcode {
        0 => FastChannel::CrcErrors(first),
        1 => FastChannel::ReceivedPower {
            power: first,
            lock: Lock::from(second),
        },
        2 => FastChannel::PowerStatistics {
            mean: (first % 256) as u8,
            deviation: (second % 256) as u8,
        },
        3 => FastChannel::SyncLosses {
            losses: first,
            lock: Lock::from(second),
        },
        4 => FastChannel::PowerRange {
            least: (first % 256) as u8,
            greatest: (second % 256) as u8,
        },
        5 => FastChannel::Version {
            major: (first % 256) as u8,
            minor: (second % 256) as u8,
            patch: (third % 256) as u8,
        },
        6 => FastChannel::CorrectedFrames(first),
        15 => FastChannel::Absent,
        _ => FastChannel::Reserved(opcode),
    }
}

fn numbers(opcode: u8, first: u16, second: u16, third: u16) -> FlatMessage
    ensures { result ≡ (record { opcode = opcode; first = first; second = second; third = third }) }
{
    FlatMessage {
        opcode,
        first,
        second,
        third,
    }
}

impl From<FastChannel> for FlatMessage {
    ghost from_gives = { λ message flat. flat ≡ flat_message message };

    fn from(message: FastChannel) -> FlatMessage {
        match message {
            FastChannel::CrcErrors(errors) => numbers(0, errors, 0, 0),
            FastChannel::ReceivedPower { power, lock } => numbers(1, power, u16::from(lock), 0),
            FastChannel::PowerStatistics { mean, deviation } => numbers(
                2,
                u16::from(mean),
                u16::from(deviation),
                0,
            ),
            FastChannel::SyncLosses { losses, lock } => numbers(3, losses, u16::from(lock), 0),
            FastChannel::PowerRange { least, greatest } => numbers(
                4,
                u16::from(least),
                u16::from(greatest),
                0,
            ),
            FastChannel::Version {
                major,
                minor,
                patch,
            } => numbers(5, u16::from(major), u16::from(minor), u16::from(patch)),
            FastChannel::CorrectedFrames(frames) => numbers(6, frames, 0, 0),
            FastChannel::Reserved(opcode) => numbers(opcode, 0, 0, 0),
            FastChannel::Absent => numbers(15, 0, 0, 0),
        }
    }
}
