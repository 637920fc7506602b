// The far end: what arrives is opened and applied, and the packets that come out go to the recorder and the tuner.
use crate::TAPS;
use crate::readers::Readers;
use basics::sizes;
use demo_report::ledger::{Blocks, Ledger};
use demo_report::totals::Totals;
use demo_report::{ledger, table, totals};
use demo_scenario::beam;
use demo_scenario::beam::Fate;
use receiver::{Applied, Receiver};
use refusals::Refusal;
use std::io;
use std::io::Write;

#[derive(Clone, Copy)]
pub struct FarEnd {
    receiver: Receiver,
    area: [u8; sizes::AREA_SIZE],
    hold: [u8; sizes::HOLD_SIZE],
    list: [u8; sizes::LIST_SIZE],
    readers: Readers,
    totals: Totals,
    // The blocks of which a part was lost or refused.
    broken: Ledger,
    // The blocks of which a part was received in a frame that was repaired.
    mended: Ledger,
}

impl FarEnd {
    pub fn fresh() -> FarEnd {
        FarEnd {
            receiver: Receiver::fresh(),
            area: [0; sizes::AREA_SIZE],
            hold: [0; sizes::HOLD_SIZE],
            list: [0; sizes::LIST_SIZE],
            readers: Readers::new(),
            totals: Totals::default(),
            broken: Ledger::new(),
            mended: Ledger::new(),
        }
    }

    // A frame is lost: the blocks that it carries do not come out. This and `refuse` are two, since what is counted and what is told differ.
    fn lose<W: Write>(&mut self, out: &mut W, blocks: Blocks) -> io::Result<()> {
        self.totals = self.totals.with_lost();
        self.broken = self.broken.with_all(blocks);
        table::lost(out)
    }

    // A frame is refused, by the one call or the other: its number is told, and the rest is the same.
    fn refuse<W: Write>(
        &mut self,
        out: &mut W,
        refusal: Refusal,
        blocks: Blocks,
    ) -> io::Result<()> {
        self.totals = self.totals.with_refused();
        self.broken = self.broken.with_all(blocks);
        table::refused(out, u8::from(refusal))
    }

    // A frame is received, of which some bytes were repaired or none: its packets stand in the list.
    fn take<W: Write>(
        &mut self,
        out: &mut W,
        applied: Applied,
        repaired: u8,
        blocks: Blocks,
    ) -> io::Result<()> {
        self.receiver = applied.receiver;
        self.totals = self.totals.with_received(repaired, applied.missed);
        if 0 < repaired {
            self.mended = self.mended.with_all(blocks);
        }
        table::received(out, repaired, applied.missed, applied.packets)?;
        let listed = demo_report::front(&self.list, applied.listed);
        self.readers.read_out(out, listed, applied.packets)
    }

    // Opens what arrives of a frame, and applies it.
    fn receive(&mut self, arrived: &[u8]) -> Result<(Applied, u8), Refusal> {
        let opened = opening::open(TAPS, arrived, &mut self.area)?;
        let applied = receiver::apply(
            opened.header,
            &self.area,
            self.receiver,
            &mut self.hold,
            &mut self.list,
        )?;
        Ok((applied, opened.repaired))
    }

    // A frame that carries parts of some blocks goes through the beam, and what is left of it is received.
    pub fn arrive<W: Write>(
        &mut self,
        out: &mut W,
        blocks: Blocks,
        count: u16,
        frame: &mut [u8; sizes::FRAME_SIZE],
    ) -> io::Result<()> {
        let Some(arrived) = through_beam(count, frame) else {
            return self.lose(out, blocks);
        };
        match self.receive(arrived) {
            Ok((applied, repaired)) => self.take(out, applied, repaired, blocks),
            Err(refusal) => self.refuse(out, refusal, blocks),
        }
    }

    pub fn print_totals<W: Write>(&self, out: &mut W, put: u16) -> io::Result<()> {
        let readers = &self.readers;
        totals::print_frames(out, &self.totals)?;
        totals::print_blocks(
            out,
            put,
            readers.recorder.blocks,
            readers.unaltered,
            ledger::in_both(&self.mended, &readers.out, put),
        )?;
        totals::print_promised(
            out,
            ledger::as_promised(&self.broken, &readers.out, put),
            put,
        )
    }
}

// The frame goes through the beam. Answers what arrives of it: nothing of one that is lost.
fn through_beam(count: u16, frame: &mut [u8; sizes::FRAME_SIZE]) -> Option<&[u8]> {
    match beam::fate_of(beam::shake_at(count)) {
        Fate::Arrives => Some(frame),
        Fate::Damaged => {
            beam::damage(count, frame);
            Some(&frame[..beam::arriving(count)])
        }
        Fate::Lost => None,
    }
}
