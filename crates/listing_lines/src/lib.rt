// The lines of a listing, as text (01, the listing program): written into lent bytes, which a program then prints.
#![tactic(auto)]

ghost use Rattle.std.specs.Prelude.{◌≡◌, [], ◌∷◌, ◌++◌, ◌+◌, ◌≤◌, length};
ghost use Rattle.lent.specs.Written.{written};
ghost use Rattle.receiver.specs.Applying.{receiver_after};
ghost use Rattle.listing_lines.specs.Lines.{decimal, kind_word, head_line, accepted_line, refused_line, answer_line};

use header::{FrameKind, Header};
use receiver::{Applied, Receiver};

// What stands behind a word.
const SPACE: u8 = 32;

const NEWLINE: u8 = 10;

// Writes a word and the byte behind it from an index on, and gives the index behind both. By an index, since the contract says which bytes stand in the lent
// buffer and that all have room: of a buffer that is lent `write!` promises neither, and a part that is lent on does not come back.
#[tactic(auto, using(lent::proofs::Written::written_append))]
fn write_word(out: &mut [u8], at: usize, word: &[u8], behind: u8) -> usize
    requires { at + length word.now + 1 ≤ length out.old }
    ensures value { result ≡ at + length word.now + 1 }
    ensures out_after { out.new ≡ written out.old at (word.now ++ (behind ∷ [])) }
{
    lent::write_at(out, at, word);
    let end = at + word.len();
    lent::write_at(out, end, &[behind]);
    end + 1
}

// The same of a number, in decimal: at most 20 digits.
#[tactic(auto, using(crate::proofs::Decimal::decimal_shown))]
fn write_number(out: &mut [u8], at: usize, number: u64, behind: u8) -> usize
    requires { at + 21 ≤ length out.old }
    ensures value { (result ≡ at + length (decimal number) + 1) × (length (decimal number) ≤ 20) }
    ensures out_after { out.new ≡ written out.old at (decimal number ++ (behind ∷ [])) }
{
    let mut digits = itoa::Buffer::new();
    write_word(out, at, digits.format(number).as_bytes(), behind)
}

// A kind's word, as bytes: only `write!` could print it by `Display`.
fn word_of(kind: FrameKind) -> &'static [u8]
    ensures word { result.now ≡ kind_word kind }
    ensures short { length result.now ≤ 5 }
{
    match kind {
        FrameKind::Idle => b"idle",
        FrameKind::Data => b"data",
        FrameKind::Type2 => b"type2",
        FrameKind::Type3 => b"type3",
    }
}

// Writes the head line, and gives its length. This line and all others have room in 96 bytes: a clause, since an array of 96 would ask more of callers.
#[tactic(auto, unfolding(crate::specs::Lines::head_line))]
pub fn write_head(out: &mut [u8]) -> usize
    requires { 96 ≤ length out.old }
    ensures value { (result ≡ length head_line) × (result ≤ 96) }
    ensures out_after { out.new ≡ written out.old 0 head_line }
{
    write_word(out, 0, b"frame txfn kind missed packets", NEWLINE)
}

// Writes the line of an accepted frame, and gives its length.
fn write_accepted(
    out: &mut [u8],
    place: u64,
    txfn: u16,
    kind: FrameKind,
    missed: u16,
    packets: usize,
) -> usize
    requires { 96 ≤ length out.old }
    ensures value { (result ≡ length (accepted_line place txfn kind missed packets)) × (result ≤ 96) }
    ensures out_after { out.new ≡ written out.old 0 (accepted_line place txfn kind missed packets) }
{
    let after_place = write_number(out, 0, place, SPACE);
    let after_txfn = write_number(out, after_place, txfn as u64, SPACE);
    let after_kind = write_word(out, after_txfn, word_of(kind), SPACE);
    let after_missed = write_number(out, after_kind, missed as u64, SPACE);
    write_number(out, after_missed, packets as u64, NEWLINE)
}

// Writes the line of a frame that is refused, by the one call or the other, and gives its length. Any number has a line: to take a `Refusal` would ask more.
pub fn write_refused(out: &mut [u8], place: u64, number: u8) -> usize
    requires { 96 ≤ length out.old }
    ensures value { (result ≡ length (refused_line place number)) × (result ≤ 96) }
    ensures out_after { out.new ≡ written out.old 0 (refused_line place number) }
{
    let after_place = write_number(out, 0, place, SPACE);
    let after_refused = write_word(out, after_place, b"refused", SPACE);
    write_number(out, after_refused, number as u64, NEWLINE)
}

// Writes the line of a frame that was opened, by its header and by what applying it answers, its refusal's number, and gives its length.
pub fn write_line(out: &mut [u8], place: u64, header: Header, answer: Result<Applied, u8>) -> usize
    requires { 96 ≤ length out.old }
    ensures value { (result ≡ length (answer_line place header answer)) × (result ≤ 96) }
    ensures out_after { out.new ≡ written out.old 0 (answer_line place header answer) }
{
    match answer {
        Ok(applied) => write_accepted(
            out,
            place,
            header.txfn.0,
            header.kind,
            applied.missed,
            applied.packets,
        ),
        Err(number) => write_refused(out, place, number),
    }
}

// The receiver after a frame: a refusal leaves it as it was, whatever tells of it.
pub fn receiver_after<E: Copy>(before: Receiver, answer: Result<Applied, E>) -> Receiver
    ensures { result ≡ receiver_after before answer }
{
    answer.map_or(before, |applied| applied.receiver)
}
