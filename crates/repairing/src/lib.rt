// The repair of a frame's bytes after its preamble: up to 8 wrong ones in the coded header and in each of the eight payload words.
#![tactic(auto)]

pub mod body;

ghost use Rattle.std.specs.Prelude.{◌≡◌, [], ◌∷◌, ◌≤◌, length, take, cond, eqb, IfOk, IsErr};
ghost use Rattle.refusals.specs.Numbers.{judged_by};
ghost use Rattle.refusals.specs.Table.{◌unless◌, first_of};
ghost use Rattle.lent.specs.Written.{written};
ghost use Rattle.scrambler.specs.Scrambler.{scrambled};
ghost use Rattle.repairing.specs.Repairing.{repair_table, RepairOutcome, shown_bytes, shown_place};

use refusals::Refusal;

// Repairs the 2,072 bytes after a preamble, and answers how many of them were wrong. Where none was, the scratch keeps its bytes; otherwise all of them as
// repaired, scrambled as they came, are written to its front. Refusals: 1, 2, 8, 12.
pub fn repair(taps: u32, part: &[u8], scratch: &mut [u8]) -> Result<u8, Refusal>
    ensures { RepairOutcome taps part.now scratch.old result scratch.new }
{
    judge_outer(taps, part, scratch)?;
    let mut body = [0u8; 2072];
    body.copy_from_slice(part);
    scrambler::scramble(taps, &mut body);
    let near = body::repair_body(&mut body);
    let judged = judge_near(near.header, near.words);
    write_repaired(judged, near.wrong, taps, body, scratch);
    judged?;
    Ok(near.wrong)
}

// Refusals: 1, 2.
#[tactic(auto, unfolding(refusals::specs::Table::first_of, refusals::specs::Table::by, refusals::specs::Numbers::refusal_of))]
fn judge_outer(taps: u32, part: &[u8], scratch: &[u8]) -> Result<(), Refusal>
    ensures { result ≡ judged_by (first_of (take 2 (repair_table taps part.now scratch.now))) }
{
    if !scrambler::are_taps(taps) {
        return Err(Refusal::Taps);
    }
    if part.len() != 2072 || scratch.len() < 2072 {
        return Err(Refusal::Length);
    }
    Ok(())
}

// Refusals: 8, 12.
#[tactic(auto, unfolding(refusals::specs::Table::first_of, refusals::specs::Table::by, refusals::specs::Numbers::refusal_of))]
fn judge_near(header: bool, words: bool) -> Result<(), Refusal>
    ensures { result ≡ judged_by (first_of (8 unless header ∷ 12 unless words ∷ [])) }
{
    if !header {
        return Err(Refusal::HeaderCode);
    }
    if !words {
        return Err(Refusal::PayloadCode);
    }
    Ok(())
}

// Writes the repaired body, scrambled again, to the front of the scratch, where nothing is refused and something was wrong.
fn write_repaired(
    judged: Result<(), Refusal>,
    wrong: u8,
    taps: u32,
    body: [u8; 2072],
    scratch: &mut [u8],
)
    requires { 2072 ≤ length scratch.old }
    ensures written { IfOk judged (λ done. scratch.new ≡ cond (eqb wrong 0) scratch.old (written scratch.old 0 (scrambled taps body))) }
    ensures kept { IsErr judged → scratch.new ≡ scratch.old }
{
    match judged {
        Ok(()) => {
            if wrong != 0 {
                write_scrambled(taps, body, scratch);
            }
        }
        Err(_) => {}
    }
}

// Writes a body, scrambled again, to the front of the scratch.
fn write_scrambled(taps: u32, body: [u8; 2072], scratch: &mut [u8])
    requires { 2072 ≤ length scratch.old }
    ensures { scratch.new ≡ written scratch.old 0 (scrambled taps body) }
{
    let mut part = body;
    scrambler::scramble(taps, &mut part);
    lent::write_at(scratch, 0, &part);
}

// The bytes after a repair: the part itself where nothing was wrong, otherwise the first 2,072 bytes of the scratch; none at a refusal, whatever tells of it.
pub fn shown<'a, E: Copy>(answer: Result<u8, E>, part: &'a [u8], scratch: &'a [u8]) -> &'a [u8]
    ensures result_value { result.now ≡ shown_bytes answer part.now scratch.now }
    ensures place { result.ref_ptr ≡ shown_place answer part.entry scratch.entry }
{
    match answer {
        Ok(0) => part,
        Ok(_) => {
            if scratch.len() < 2072 {
                return &scratch[0..0];
            }
            &scratch[0..2072]
        }
        Err(_) => &part[0..0],
    }
}
