// The bytes that stay from record to record.
use crate::lent_bytes::Lent;

// Behind the queue that is lent to calls, the hold and the list's buffer stand some bytes more, so that a byte written past their ends is seen.
#[derive(Drop)]
pub struct Buffers {
    // The frame that the last record brought.
    pub at_hand: Lent,
    pub queue: [u8; 32780],
    pub hold: [u8; 9012],
    pub list: [u8; 10920],
}

impl Buffers {
    // No frame, and no bytes yet.
    pub fn new() -> Buffers {
        Buffers {
            at_hand: [0; 2100],
            queue: [0; 32780],
            hold: [0; 9012],
            list: [0; 10920],
        }
    }
}
