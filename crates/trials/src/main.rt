// Runs the proved libraries against published check values and against the second coder's vectors, which it reads from
// standard input, and prints how many agree, and how many of those that are planted, and wrong, do not. `tests/README.md` says where the vectors come from.
#![tactic(auto)]

mod kinds;

use code_trials::published;
use std::io;
use std::io::{Read, Write};
use vectors::buffers::Buffers;
use vectors::record;
use vectors::tally::Tally;

// Tries as many records as the input announces, or as it holds.
fn all_tried<R: Read, W: Write>(input: &mut R, out: &mut W, announced: u32) -> io::Result<Tally> {
    let mut tally = Tally::new();
    let mut buffers = Buffers::new();
    let mut room = [0u8; 65536];
    for _ in 0..announced {
        let Some(record) = record::next(input, &mut room) else {
            tally.cut_short(out)?;
            return Ok(tally);
        };
        let outcome = kinds::outcome(record.kind, record.body, &mut buffers);
        tally.add(out, record.kind, outcome)?;
    }
    Ok(tally)
}

fn try_all<R: Read, W: Write>(input: &mut R, out: &mut W) -> io::Result<()> {
    let checks = published::tried(out)?;
    let wrong_checks = published::planted(out)?;
    let announced = record::announced(input);
    let mut tally = all_tried(input, out, announced)?;
    if !record::is_at_end(input) {
        tally.followed(out)?;
    }
    kinds::print(out, &tally)?;
    writeln!(out, "planted check values {wrong_checks}")?;
    writeln!(out, "check values {checks}")?;
    tally.print_totals(out, u64::from(announced))
}

fn main(rt: HostRuntime) -> io::Result<()> {
    let mut input = rt.stdin();
    let mut out = io::writer(&rt);
    try_all(&mut input, &mut out)
}
