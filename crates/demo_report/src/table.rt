// The table of frames, printed from left to right: each part begins at the column where the one before it ends. A refusal is told by its number, whichever
// it is: to take a `Refusal` would ask more of callers.
use crate::ledger::Blocks;
use refusals::Refusal;
use std::io;
use std::io::Write;

// Where the blocks that came out are told, and behind them what the recorder keeps.
pub const OUT: usize = 67;

const RECORDER: usize = 80;

fn digits_of(n: u64) -> usize {
    n.checked_ilog10().map_or(1, |last| last as usize + 1)
}

// Numbers from the first to the last, as "3 to 5", or one alone as "3", at the left of a width.
fn range<W: Write>(out: &mut W, first: u64, last: u64, width: usize) -> io::Result<()> {
    if first == last {
        return write!(out, "{first:<width$}");
    }
    let rest = width.saturating_sub(4).saturating_sub(digits_of(first));
    write!(out, "{first} to {last:<rest$}")
}

// Begins the line of a frame.
pub fn frame<W: Write>(out: &mut W, count: u16, shake: u64) -> io::Result<()> {
    write!(out, "\n{count:>5}{shake:>7}")
}

pub fn put<W: Write>(out: &mut W, block: u16, length: usize) -> io::Result<()> {
    write!(out, "{block:>7}{length:>6}  ")
}

pub fn nothing_put<W: Write>(out: &mut W) -> io::Result<()> {
    write!(out, "{:15}", "")
}

pub fn not_put<W: Write>(out: &mut W, block: u16, refusal: u8) -> io::Result<()> {
    write!(out, "{block:>7} refused {refusal:>2}")
}

// The blocks that a frame carries a part of.
pub fn carries<W: Write>(out: &mut W, blocks: Blocks) -> io::Result<()> {
    range(
        out,
        blocks.first as u64,
        blocks.end.wrapping_sub(1) as u64,
        11,
    )
}

pub fn idle<W: Write>(out: &mut W) -> io::Result<()> {
    write!(out, "{:11}", "idle")
}

pub fn not_sent<W: Write>(out: &mut W, refusal: u8) -> io::Result<()> {
    write!(out, "refused {refusal:>2}")
}

pub fn lost<W: Write>(out: &mut W) -> io::Result<()> {
    write!(out, "lost")
}

// How many bytes were repaired is told where some were. With a space behind it where packets come out.
pub fn received<W: Write>(
    out: &mut W,
    repaired: u8,
    missed: u16,
    packets: usize,
) -> io::Result<()> {
    if repaired == 0 {
        write!(out, "{:21}", "received")?;
    } else {
        let rest = 10usize.saturating_sub(digits_of(repaired as u64));
        write!(out, "received, {repaired} {:rest$}", "repaired")?;
    }
    write!(out, "{missed:>7}")?;
    if 0 < packets {
        write!(out, " ")?;
    }
    Ok(())
}

// What a refusal says of a damaged frame.
fn reason(refusal: u8) -> &'static str {
    let told = [
        (Refusal::Length, ", cut short"),
        (Refusal::Preamble, ", preamble"),
        (Refusal::HeaderCode, ", header"),
        (Refusal::PayloadCode, ", payload"),
    ];
    told.iter()
        .find(|(named, _)| u8::from(*named) == refusal)
        .map_or("", |(_, words)| words)
}

pub fn refused<W: Write>(out: &mut W, refusal: u8) -> io::Result<()> {
    write!(out, "refused {refusal}{}", reason(refusal))
}

// A block that came out, told from a column on. Answers the column behind it.
pub fn out<W: Write>(out: &mut W, column: usize, block: u16) -> io::Result<usize> {
    write!(out, " {block}")?;
    Ok(column.wrapping_add(digits_of(block as u64)).wrapping_add(1))
}

// What the recorder keeps and how many gaps it knows of, told behind a column.
pub fn recorder<W: Write>(out: &mut W, column: usize, kept: u64, gaps: u64) -> io::Result<()> {
    let rest = RECORDER.saturating_sub(column);
    write!(out, "{:rest$}{kept:>6}{gaps:>6}", "")
}

// The tuner's newest run.
pub fn tuner<W: Write>(out: &mut W, first: u64, last: u64) -> io::Result<()> {
    write!(out, "  ")?;
    range(out, first, last, 0)
}
