// What the records came to.
use crate::count::Count;
use outcome::{Malformed, Outcome};
use std::io;
use std::io::Write;

// A record's kind is a number below this one. One that is planted has so much more: what it expects is wrong, and it has to come out as different.
pub const PLANTED: u8 = 64;

// Kinds, and those that are planted.
const KINDS: usize = 128;

fn is_planted(kind: u8) -> bool {
    PLANTED <= kind
}

#[derive(Clone, Copy)]
pub struct Tally {
    // By kind.
    pub kinds: [Count; KINDS],
    // Of the records that are not planted, and of those that are. One place in the code counts both, so that what it does to planted ones tells of others.
    pub totals: [Count; 2],
    pub malformed: u64,
    // The place of the next record, from 1.
    pub place: u64,
}

impl Tally {
    pub fn new() -> Tally {
        Tally {
            kinds: [Count::default(); KINDS],
            totals: [Count::default(); 2],
            malformed: 0,
            place: 1,
        }
    }

    // One record more. A line says of it what it should not be.
    pub fn add<W: Write>(&mut self, out: &mut W, kind: u8, outcome: Outcome) -> io::Result<()> {
        let place = self.place;
        match outcome {
            Ok(is_same) => {
                if is_same && is_planted(kind) {
                    writeln!(
                        out,
                        "record {place} of kind {kind} is planted, and does not differ"
                    )?;
                }
                if !is_same && !is_planted(kind) {
                    writeln!(out, "record {place} of kind {kind} differs")?;
                }
                self.compared(kind, is_same);
            }
            Err(Malformed) => {
                writeln!(out, "record {place} of kind {kind} is malformed")?;
                self.refused();
            }
        }
        Ok(())
    }

    fn compared(&mut self, kind: u8, is_same: bool) {
        if let Some(of_kind) = self.kinds.get_mut(usize::from(kind)) {
            *of_kind = of_kind.with(is_same);
        }
        let which = usize::from(is_planted(kind));
        self.totals[which] = self.totals[which].with(is_same);
        self.place = self.place.saturating_add(1);
    }

    fn refused(&mut self) {
        self.malformed = self.malformed.saturating_add(1);
        self.place = self.place.saturating_add(1);
    }

    // The input ended before the end of the record at this place.
    pub fn cut_short<W: Write>(&mut self, out: &mut W) -> io::Result<()> {
        writeln!(
            out,
            "the input ends before the end of record {}",
            self.place
        )?;
        self.refused();
        Ok(())
    }

    // After the last record bytes follow.
    pub fn followed<W: Write>(&mut self, out: &mut W) -> io::Result<()> {
        writeln!(out, "bytes follow the last record")?;
        self.refused();
        Ok(())
    }

    // The lines of the kinds from a number on.
    pub fn print_kinds<W: Write>(
        &self,
        out: &mut W,
        first: usize,
        names: &[&str],
    ) -> io::Result<()> {
        for (count, name) in self.kinds.iter().skip(first).zip(names) {
            writeln!(out, "{} {} {name}", count.compared, count.different)?;
        }
        Ok(())
    }

    // The last lines.
    pub fn print_totals<W: Write>(&self, out: &mut W, announced: u64) -> io::Result<()> {
        let [total, planted] = self.totals;
        writeln!(out, "planted vectors {planted}")?;
        writeln!(
            out,
            "vectors {announced} announced, {total}, {} malformed",
            self.malformed
        )
    }
}
