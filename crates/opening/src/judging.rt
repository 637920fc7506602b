// What is asked of a frame that arrived, in the order of the refusals' numbers.
ghost use Rattle.std.specs.Prelude.{◌≡◌, length, take};
ghost use Rattle.basics.specs.Sizes.{frame_size};
ghost use Rattle.refusals.specs.Numbers.{judged_by};
ghost use Rattle.refusals.specs.Table.{first_of};
ghost use Rattle.opening.specs.Opening.{unscrambled, header_part, repaired_table, open_table, area_checked};

use basics::sizes;
use refusals::Refusal;

// Where the area ends in what follows the preamble: the 32 bytes of coded header stand before it.
pub const AREA_END: usize = 32 + sizes::AREA_SIZE;

// Where its CRC-32 ends.
const CHECK_END: usize = AREA_END + 4;

// The table's first three rows, 1, 2 and 7, before the frame is unscrambled.
pub fn judge_outside(taps: u32, frame: &[u8], area: &[u8]) -> Result<(), Refusal>
    ensures { result ≡ judged_by (first_of (take 3 (open_table taps frame.now area.now))) }
{
    if !scrambler::are_taps(taps) {
        return Err(Refusal::Taps);
    }
    if frame.len() != sizes::FRAME_SIZE || area.len() < sizes::AREA_SIZE {
        return Err(Refusal::Length);
    }
    if !lent::are_same(&frame[..9], &frame::preamble()) {
        return Err(Refusal::Preamble);
    }
    Ok(())
}

// The 2,072 bytes after the preamble, with the scrambler's bits taken off. They are written where they are wanted: handed out, they would be copied twice more.
pub fn unscramble(taps: u32, frame: &[u8], body: &mut [u8; 2072])
    requires { length frame.now ≡ frame_size }
    ensures { body.new ≡ unscrambled taps frame.now }
{
    body.copy_from_slice(&frame[9..]);
    scrambler::scramble(taps, body);
}

// The header's 16 bytes, which begin the body.
pub fn header_part(body: &[u8; 2072]) -> &[u8; 16]
    ensures { result.now ≡ header_part body.now }
{
    body.first_chunk().unwrap()
}

// 8, 9, 11 to 13: of a body as repaired, and whether a codeword was near its header and near each of its words.
#[tactic(auto, unfolding(refusals::specs::Table::first_of, refusals::specs::Table::by, refusals::specs::Numbers::refusal_of))]
pub fn judge_inside(header: bool, words: bool, body: &[u8; 2072]) -> Result<(), Refusal>
    ensures { result ≡ judged_by (first_of (repaired_table header words body.now)) }
{
    if !header {
        return Err(Refusal::HeaderCode);
    }
    header_reading::judge(header_part(body))?;
    if !words {
        return Err(Refusal::PayloadCode);
    }
    if is_area_checked(body) {
        Ok(())
    } else {
        Err(Refusal::PayloadCheckSum)
    }
}

fn is_area_checked(body: &[u8; 2072]) -> bool
    ensures { result ≡ area_checked body.now }
{
    let check = frame::area_check(&body[32..AREA_END]);
    lent::are_same(&body[AREA_END..CHECK_END], &check)
}
