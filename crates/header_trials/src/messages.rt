// A fast-channel message as the vectors hold it: its kind, 0 to 8, and three numbers, 0 where it has fewer. Kinds 0 to 6 are opcodes, with the numbers that
// C has for them; 7 is a reserved message, whose number is its opcode, be it one that may be sent or not; 8 is none.
use fast_channel::FastChannel;
use flat::messages;
use flat::messages::FlatMessage;

const RESERVED: u8 = 7;

const ABSENT: u8 = 8;

// No `FlatMessage`, whose first number is an opcode: here it is a kind.
#[derive(Clone, Copy)]
pub struct Message {
    pub kind: u8,
    pub numbers: [u16; 3],
}

impl From<FastChannel> for Message {
    fn from(channel: FastChannel) -> Message {
        match channel {
            FastChannel::Reserved(opcode) => Message {
                kind: RESERVED,
                numbers: [u16::from(opcode), 0, 0],
            },
            FastChannel::Absent => Message {
                kind: ABSENT,
                numbers: [0; 3],
            },
            _ => {
                let flat = FlatMessage::from(channel);
                Message {
                    kind: flat.opcode,
                    numbers: [flat.first, flat.second, flat.third],
                }
            }
        }
    }
}

// What no message has is lost: the way back then gives other numbers.
impl From<Message> for FastChannel {
    fn from(message: Message) -> FastChannel {
        let [first, second, third] = message.numbers;
        match message.kind {
            RESERVED => FastChannel::Reserved(first.to_be_bytes()[1]),
            ABSENT => FastChannel::Absent,
            opcode => messages::message_of(FlatMessage {
                opcode,
                first,
                second,
                third,
            }),
        }
    }
}
