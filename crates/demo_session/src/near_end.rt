// The near end: blocks are put, and the next frame is built.
use crate::TAPS;
use basics::sizes;
use counts::Rxfn;
use demo_report::ledger::Blocks;
use demo_report::table;
use demo_scenario::{beam, blocks};
use fast_channel::FastChannel;
use header::{Fields, FrameKind};
use sender::Sender;
use std::io;
use std::io::Write;

#[derive(Clone, Copy)]
pub struct NearEnd {
    sender: Sender,
    queue: [u8; sizes::QUEUE_SIZE],
    // How many blocks were put.
    pub put: u16,
    // Those of which the frame at hand carries a part.
    pub blocks: Blocks,
}

impl NearEnd {
    pub fn fresh() -> NearEnd {
        NearEnd {
            sender: Sender::fresh(),
            queue: [0; sizes::QUEUE_SIZE],
            put: 0,
            blocks: Blocks::default(),
        }
    }

    // Puts the next block, which is made in bytes lent for it.
    fn put_block<W: Write>(&mut self, out: &mut W, block: &mut [u8]) -> io::Result<()> {
        let number = self.put;
        blocks::write(number, block);
        match sender::put(&mut self.queue, self.sender, block) {
            Ok(next) => {
                self.sender = next;
                self.put = number.wrapping_add(1);
                table::put(out, number, block.len())
            }
            Err(refusal) => table::not_put(out, number, u8::from(refusal)),
        }
    }

    // Puts a block where one is due.
    fn put_due<W: Write>(&mut self, out: &mut W, count: u16) -> io::Result<()> {
        if !is_block_due(count) {
            return table::nothing_put(out);
        }
        let mut block = [0u8; sizes::MOST_PACKET];
        let length = blocks::length_of(self.put);
        self.put_block(out, &mut block[..length])
    }

    // The number of the first block of which not all is sent.
    fn first_waiting(&self) -> u16 {
        sender::waiting(&self.queue, self.sender).map_or(
            self.put,
            |waiting| first_of(self.put, waiting.packets),
        )
    }

    // The number behind the last block of which all is sent, or a part: a part of the first that waits is, where fewer bytes wait than those blocks have.
    fn end_of_sent(&self) -> u16 {
        match sender::waiting(&self.queue, self.sender) {
            Ok(waiting) => {
                let first = first_of(self.put, waiting.packets);
                if waiting.bytes < length_of_all(first, self.put) {
                    first.wrapping_add(1)
                } else {
                    first
                }
            }
            Err(_) => self.put,
        }
    }

    // Builds the next frame, and tells which blocks it carries a part of.
    fn send<W: Write>(
        &mut self,
        out: &mut W,
        frame: &mut [u8; sizes::FRAME_SIZE],
    ) -> io::Result<()> {
        let first = self.first_waiting();
        match sending::next_frame(TAPS, fields(), self.sender, &mut self.queue, frame) {
            Ok(sent) => {
                self.sender = sent.sender;
                self.blocks = Blocks {
                    first,
                    end: self.end_of_sent(),
                };
                match sent.kind {
                    FrameKind::Data => table::carries(out, self.blocks),
                    _ => table::idle(out),
                }
            }
            Err(refusal) => table::not_sent(out, u8::from(refusal)),
        }
    }

    // The next frame: a block is put where one is due, and the frame is built. Its line begins with what is told of both.
    pub fn next<W: Write>(
        &mut self,
        out: &mut W,
        count: u16,
        frame: &mut [u8; sizes::FRAME_SIZE],
    ) -> io::Result<()> {
        table::frame(out, count, beam::shake_at(count))?;
        self.put_due(out, count)?;
        self.send(out, frame)
    }
}

// Two blocks are put in three frames; the last frames bring out what still waits.
fn is_block_due(count: u16) -> bool {
    count <= 58 && count % 3 != 2
}

// The number of the first of the blocks that wait, one that is begun among them.
fn first_of(put: u16, packets: usize) -> u16 {
    put.wrapping_sub((packets % 65536) as u16)
}

// How many bytes the blocks have from one number up to the one before another.
fn length_of_all(first: u16, end: u16) -> usize {
    (first..end)
        .map(blocks::length_of)
        .fold(0, usize::wrapping_add)
}

// Of each frame: no acknowledgement, no time and no message. The library has no such default, for what is sent is the caller's to say.
fn fields() -> Fields {
    Fields {
        rxfn: Rxfn(0),
        ack: false,
        valid: false,
        stamp: 0,
        seconds: 0,
        applies: 0,
        message: FastChannel::Absent,
    }
}
