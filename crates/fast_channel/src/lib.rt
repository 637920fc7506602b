// The messages of the fast channel (source 000, Tables 2-12 and 2-13): to an opcode and a payload of 16 bits, and back.
// And the level that a code stands for.
#![tactic(auto)]

ghost use Rattle.std.specs.Prelude.{◌≡◌, ◌≤◌};
ghost use Rattle.fast_channel.specs.FastChannel.{lock_number, lock_of, opcode_of, payload_of, message_fits, message_of, payload_rule};
ghost use Rattle.fast_channel.specs.Level.{LevelOutcome};

// Frame synchronization over the time that a message reports on: lost at least once, or held.
#[derive(Clone, Copy, Debug, PartialEq, Eq)]
pub enum Lock {
    NotLocked = 0,
    Locked = 1,
}

// The two bits of a payload.
impl From<Lock> for u16 {
    ghost from_gives = { λ lock number. (number ≡ lock_number lock) × (number ≤ 1) };

    fn from(lock: Lock) -> u16 {
        lock as u16
    }
}

// A number above 1 is taken for 1, so that this is no `TryFrom`: the rule of a payload has refused it before.
impl From<u16> for Lock {
    ghost from_gives = { λ number lock. lock ≡ lock_of number };

    fn from(number: u16) -> Lock {
        if number == 0 {
            Lock::NotLocked
        } else {
            Lock::Locked
        }
    }
}

// One message of the fast channel, out of nine kinds, with its opcode and the name that Table 2-12 gives it.
#[derive(Clone, Copy, Debug, PartialEq, Eq)]
pub enum FastChannel {
    // 0, LAPC_CRC_ERROR_REPORT: frames with a CRC error in the last second.
    CrcErrors(u16),
    // 1, LAPC_RSSI_FAST: the power received in the last 10 ms, 14 bits.
    ReceivedPower { power: u16, lock: Lock },
    // 2, LAPC_RSSI_SLOW: the power received in the last second, as codes of `level`.
    PowerStatistics { mean: u8, deviation: u8 },
    // 3, LAPC_SYNC_REPORT: how often synchronization was lost in the last second, 14 bits.
    SyncLosses { losses: u16, lock: Lock },
    // 4, OISL_SENSITIVITY: the least power that the terminal requires and the greatest that it permits, as codes of `level`.
    PowerRange { least: u8, greatest: u8 },
    // 5, OISL_CAPABILITIES: the version of the standard, 5, 5 and 6 bits.
    Version { major: u8, minor: u8, patch: u8 },
    // 6, LAPC_FEC_CORRECTED_ERROR_REPORT: frames that needed a correction in the last second.
    CorrectedFrames(u16),
    // 7 to 14, RESERVED: the opcode.
    Reserved(u8),
    // 15: no message.
    Absent,
}

impl FastChannel {
    pub fn opcode(self) -> u8
        ensures { result ≡ opcode_of self }
    {
        match self {
            FastChannel::CrcErrors(_) => 0,
            FastChannel::ReceivedPower { .. } => 1,
            FastChannel::PowerStatistics { .. } => 2,
            FastChannel::SyncLosses { .. } => 3,
            FastChannel::PowerRange { .. } => 4,
            FastChannel::Version { .. } => 5,
            FastChannel::CorrectedFrames(_) => 6,
            FastChannel::Reserved(opcode) => opcode,
            FastChannel::Absent => 15,
        }
    }

    // The numbers from the top bit down. One that is too large for its bits is cut off, and is refused before it is sent.
    pub fn payload(self) -> u16
        ensures { result ≡ payload_of self }
    {
        match self {
            FastChannel::CrcErrors(frames) | FastChannel::CorrectedFrames(frames) => frames,
            FastChannel::ReceivedPower {
                power: number,
                lock,
            }
            | FastChannel::SyncLosses {
                losses: number,
                lock,
            } => 4 * (number % 16384) + u16::from(lock),
            FastChannel::PowerStatistics {
                mean: first,
                deviation: second,
            }
            | FastChannel::PowerRange {
                least: first,
                greatest: second,
            } => u16::from_be_bytes([first, second]),
            FastChannel::Version {
                major,
                minor,
                patch,
            } => 2048 * u16::from(major % 32) + 64 * u16::from(minor % 32) + u16::from(patch % 64),
            FastChannel::Reserved(_) => 0,
            FastChannel::Absent => 65535,
        }
    }

    // No number of the message is too large for its bits, and a reserved opcode is one of 7 to 14.
    pub fn fits(self) -> bool
        ensures { result ≡ message_fits self }
    {
        match self {
            FastChannel::ReceivedPower { power: number, .. }
            | FastChannel::SyncLosses { losses: number, .. } => number < 16384,
            FastChannel::Version {
                major,
                minor,
                patch,
            } => major < 32 && minor < 32 && patch < 64,
            FastChannel::Reserved(opcode) => matches!(opcode, 7..=14),
            _ => true,
        }
    }

    // The message that a receiver reads. A message is two numbers, so that `From`, which would take and give them as a pair, is no plainer. Numbers of 14, 5, 5
    // and 6 bits are no whole bytes, and so are taken apart by arithmetic.
    #[tactic(auto, unfolding(crate::specs::FastChannel::message_of))]
    pub fn received(opcode: u8, payload: u16) -> FastChannel
        ensures { result ≡ message_of opcode payload }
    {
        match opcode {
            0 => FastChannel::CrcErrors(payload),
            1 => FastChannel::ReceivedPower {
                power: payload / 4,
                lock: Lock::from(payload % 4),
            },
            2 => {
                let [mean, deviation] = payload.to_be_bytes();
                FastChannel::PowerStatistics { mean, deviation }
            }
            3 => FastChannel::SyncLosses {
                losses: payload / 4,
                lock: Lock::from(payload % 4),
            },
            4 => {
                let [least, greatest] = payload.to_be_bytes();
                FastChannel::PowerRange { least, greatest }
            }
            5 => FastChannel::Version {
                major: (payload / 2048) as u8,
                minor: (payload / 64 % 32) as u8,
                patch: (payload % 64) as u8,
            },
            6 => FastChannel::CorrectedFrames(payload),
            15 => FastChannel::Absent,
            _ => FastChannel::Reserved(opcode),
        }
    }

    // A received payload goes by the rule of its opcode.
    #[tactic(auto, unfolding(crate::specs::FastChannel::payload_rule))]
    pub fn payload_rule(opcode: u8, payload: u16) -> bool
        ensures { result ≡ payload_rule opcode payload }
    {
        match opcode {
            1 | 3 => payload % 4 < 2,
            0..=6 => true,
            15 => payload == 65535,
            _ => payload == 0,
        }
    }
}

// The level that a code stands for, in hundred-thousandths of a dBm/m².
pub fn level(code: u8) -> i32
    ensures { LevelOutcome code result }
{
    -25086 * (code as i32)
}
