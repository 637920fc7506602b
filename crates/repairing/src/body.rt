// A body, which is what follows a preamble with the scrambler's bits taken off: its coded header and its eight words, repaired where they stand.
ghost use Rattle.std.specs.Prelude.{◌≡◌, ◌<◌, length, take, drop, is_some};
ghost use Rattle.basics.specs.Lists.{entries};
ghost use Rattle.lent.specs.Written.{written};
ghost use Rattle.reed_solomon.specs.Code.{remainder_of, lengthened};
ghost use Rattle.reed_solomon.specs.Payload.{every_eighth};
ghost use Rattle.reed_solomon.specs.Rows.{spread, remainder_byte};
ghost use Rattle.nearest.specs.Near.{near_word, near_header, repaired_header, differences};
ghost use Rattle.repairing.specs.Body.{words_near, repaired_payload};
ghost use Rattle.repairing.specs.Words.{with_word, BodyOutcome};

use reed_solomon::interleaving;

// Facts beside one another, and no Result: `open` asks for the header's check sum and its fields between the two, and counts the wrong bytes of what passes.
#[derive(Clone, Copy)]
pub struct BodyAnswer {
    // Whether a codeword is near the coded header.
    pub header: bool,
    // Whether one is near each of the eight words.
    pub words: bool,
    // How many bytes were wrong.
    pub wrong: u8,
}

// Repairs a body. All words are tested first; the search is for those alone that are no codewords.
pub fn repair_body(body: &mut [u8; 2072]) -> BodyAnswer
    ensures { BodyOutcome body.old result body.new }
{
    let header = reed_solomon::remainder_of(&body[..32]);
    let words = interleaving::remainders(&body[32..]);
    if lent::are_zeros(&header) && lent::are_zeros(&words) {
        return BodyAnswer {
            header: true,
            words: true,
            wrong: 0,
        };
    }
    repair_damaged(body, header, words)
}

// The same, where something is wrong: given what division leaves of the coded header and of the eight words.
fn repair_damaged(body: &mut [u8; 2072], header: [u8; 16], words: [u8; 128]) -> BodyAnswer
    requires { (header ≡ remainder_of (lengthened (take 32 body.old))) × (words ≡ entries (remainder_byte (drop 32 body.old)) 0 128) }
    ensures { BodyOutcome body.old result body.new }
{
    let arrived = *body;
    let header_near = repair_header(body, header);
    let words_near = repair_words(&mut body[32..], words);
    let wrong = count_differences(&arrived, body);
    BodyAnswer {
        header: header_near,
        words: words_near,
        wrong: wrong as u8,
    }
}

// The coded header at the front of a body, repaired where it stands; and whether a codeword is near it.
fn repair_header(body: &mut [u8; 2072], remainder: [u8; 16]) -> bool
    requires { remainder ≡ remainder_of (lengthened (take 32 body.old)) }
    ensures { (result ≡ is_some (near_header (take 32 body.old)))
        × (body.new ≡ written body.old 0 (repaired_header (take 32 body.old))) }
{
    let mut own = [0u8; 32];
    own.copy_from_slice(&body[..32]);
    let Some(header) = nearest::repair_header(own, remainder) else {
        return false;
    };
    lent::write_at(body, 0, &header);
    true
}

// The eight words of a payload repaired; and whether a codeword is near each. The payload is a slice with its length in a clause: as an array this part of a
// body would leave a test of its length in the code, as it does in `number_at` of crate lent.
fn repair_words(payload: &mut [u8], remainders: [u8; 128]) -> bool
    requires { (length payload.old ≡ 2040) × (remainders ≡ entries (remainder_byte payload.old) 0 128) }
    ensures { (result ≡ words_near payload.old) × (payload.new ≡ repaired_payload payload.old) }
{
    let mut all = true;
    for k in 0..8 {
        let remainder = interleaving::gathered(&remainders, k);
        all &= repair_word(payload, remainder, k);
    }
    all
}

// Word k repaired where it stands; and whether a codeword is near it. A word of which division leaves nothing is not searched.
fn repair_word(payload: &mut [u8], remainder: [u8; 16], k: usize) -> bool
    requires { (k < 8) × (length payload.old ≡ 2040) × (remainder ≡ remainder_of (every_eighth 255 k payload.old)) }
    ensures { (result ≡ is_some (near_word (every_eighth 255 k payload.old)))
        × (payload.new ≡ with_word k payload.old) }
{
    if lent::are_zeros(&remainder) {
        return true;
    }
    let own = interleaving::gathered(payload, k);
    let Some(word) = nearest::repair_word(own, remainder) else {
        return false;
    };
    write_word(payload, word, k);
    true
}

// Writes word k: its bytes are every eighth, so each goes by an index to a place of its own.
fn write_word(payload: &mut [u8], word: [u8; 255], k: usize)
    requires { (k < 8) × (length payload.old ≡ 2040) }
    ensures { payload.new ≡ spread word k payload.old }
{
    for j in 0..255 {
        payload[k + 8 * j] = word[j];
    }
}

// How many bytes of two bodies differ.
fn count_differences(a: &[u8; 2072], b: &[u8; 2072]) -> usize
    ensures { result ≡ differences a.now b.now }
{
    a.iter().zip(b).filter(|(x, y)| x != y).count()
}
