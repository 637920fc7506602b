// The two who read the packets that come out, the recorder and the tuner.
use demo_report::ledger::Ledger;
use demo_report::table;
use demo_scenario::blocks;
use demo_views::{Recorder, Tuner};
use std::io;
use std::io::Write;

#[derive(Clone, Copy)]
pub struct Readers {
    pub recorder: Recorder,
    pub tuner: Tuner,
    // The blocks that came out, and how many of them as they went in.
    pub out: Ledger,
    pub unaltered: u64,
}

impl Readers {
    pub fn new() -> Readers {
        Readers {
            recorder: Recorder::new(),
            tuner: Tuner::new(),
            out: Ledger::new(),
            unaltered: 0,
        }
    }

    // Reads a packet that came out, and answers which block it is.
    fn read_packet(&mut self, packet: &[u8]) -> u16 {
        let number = blocks::number_of(packet);
        self.recorder = self.recorder.with(number);
        self.tuner = self.tuner.with(number);
        self.out = self.out.with(number);
        if blocks::is_block(number, packet) {
            self.unaltered = self.unaltered.saturating_add(1);
        }
        number
    }

    // What they know, told behind a column.
    fn tell<W: Write>(&self, out: &mut W, column: usize) -> io::Result<()> {
        table::recorder(out, column, self.recorder.blocks, self.recorder.gaps)?;
        table::tuner(out, self.tuner.first, self.tuner.due.wrapping_sub(1))
    }

    // Reads the packets of a list, from its beginning on.
    pub fn read_out<W: Write>(
        &mut self,
        out: &mut W,
        listed: &[u8],
        packets: usize,
    ) -> io::Result<()> {
        let mut position = 0;
        let mut column = table::OUT;
        for _ in 0..packets {
            let Ok(Some(place)) = list::entry(listed, position) else {
                return Ok(());
            };
            let number = self.read_packet(list::packet(listed, position));
            column = table::out(out, column, number)?;
            position = place.next;
        }
        if 0 < packets {
            self.tell(out, column)?;
        }
        Ok(())
    }
}
