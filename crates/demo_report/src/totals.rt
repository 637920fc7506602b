// What the session came to, in numbers.
use std::io::Write;
use std::{fmt, io};

#[derive(Clone, Copy, Default)]
pub struct Totals {
    pub received: u64,
    // Those received of which bytes were repaired.
    pub repaired: u64,
    pub refused: u64,
    pub lost: u64,
    // The sum of the missed counts.
    pub missed: u64,
}

// Counts stay at the largest number, which no session reaches.
impl Totals {
    pub fn with_received(self, repaired: u8, missed: u16) -> Totals {
        Totals {
            received: self.received.saturating_add(1),
            repaired: self.repaired.saturating_add(u64::from(0 < repaired)),
            missed: self.missed.wrapping_add(missed as u64),
            ..self
        }
    }

    pub fn with_refused(self) -> Totals {
        Totals {
            refused: self.refused.saturating_add(1),
            ..self
        }
    }

    pub fn with_lost(self) -> Totals {
        Totals {
            lost: self.lost.saturating_add(1),
            ..self
        }
    }
}

impl fmt::Display for Totals {
    fn fmt<W: fmt::Write>(&self, f: &mut fmt::Formatter<W>) -> fmt::Result {
        write!(
            f,
            "{} received, {} of them repaired, {} refused, {} lost; the missed counts add up to {}",
            self.received, self.repaired, self.refused, self.lost, self.missed,
        )
    }
}

pub fn print_frames<W: Write>(out: &mut W, totals: &Totals) -> io::Result<()> {
    write!(out, "\n\nframes: {totals}\n")
}

pub fn print_blocks<W: Write>(
    out: &mut W,
    put: u16,
    came_out: u64,
    unaltered: u64,
    mended: usize,
) -> io::Result<()> {
    writeln!(
        out,
        "blocks: {put} put, {came_out} came out, {unaltered} of these unaltered, {mended} with a part in a repaired frame",
    )
}

pub fn print_promised<W: Write>(out: &mut W, promised: usize, put: u16) -> io::Result<()> {
    writeln!(
        out,
        "blocks that came out exactly if every frame with a part of them was received: {promised} of {put}",
    )
}
