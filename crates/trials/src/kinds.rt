// The kinds of record: which crate tries one, and its line in the table. Numbers are never used for another kind. They stay numbers and become no enum, which
// would write each down once more, beside the ranges here and the match of the crate that tries it.
use outcome::Outcome;
use std::io;
use std::io::Write;
use vectors::buffers::Buffers;
use vectors::tally;
use vectors::tally::Tally;

// A planted record is tried as any other of its kind.
pub fn outcome(given: u8, body: &mut [u8], buffers: &mut Buffers) -> Outcome {
    let kind = given.checked_sub(tally::PLANTED).unwrap_or(given);
    match kind {
        0..=9 | 28..=32 => code_trials::kinds::outcome(kind, body),
        10..=12 => header_trials::kinds::outcome(kind, body),
        16..=20 | 33 => sender_trials::kinds::outcome(kind, body, buffers),
        21..=27 => receiver_trials::kinds::outcome(kind, body, buffers),
        _ => frame_trials::kinds::outcome(kind, body, &mut buffers.at_hand),
    }
}

pub fn print<W: Write>(out: &mut W, tally: &Tally) -> io::Result<()> {
    // Every kind, from 1 on.
    let names = [
        "CRC-16",
        "CRC-32",
        "power of 2",
        "parity",
        "codeword judged",
        "payload coded",
        "payload judged",
        "taps judged",
        "bytes scrambled",
        "level",
        "header coded",
        "header read",
        "frame built",
        "frame opened",
        "frame refused",
        "queue begun",
        "queue changed",
        "packet put",
        "next frame",
        "queue in full",
        "hold and list begun",
        "frame opened and applied",
        "list changed",
        "list read",
        "list in full",
        "hold in full",
        "area applied",
        "parity, plain form",
        "codeword judged, plain form",
        "payload coded, plain form",
        "payload judged, plain form",
        "bytes scrambled, plain form",
        "waiting counted",
        "frame changed",
        "part repaired",
        "part shown",
    ];
    writeln!(out, "compared different kind")?;
    tally.print_kinds(out, 1, &names)?;
    writeln!(out, "planted different kind")?;
    tally.print_kinds(out, 1 + usize::from(tally::PLANTED), &names)
}
