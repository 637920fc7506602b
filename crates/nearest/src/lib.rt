// Repair of damaged bytes: the codeword that differs from a word in at most 8 bytes, given what division leaves of the word. That goes beside its word: the
// caller divides all eight words at once, and a struct of both would be made at each call and taken apart in it.
#![tactic(auto)]

mod errors;
mod locating;
mod places;
mod sums;
mod values;

ghost use Rattle.std.specs.Prelude.{◌≡◌, drop};
ghost use Rattle.basics.specs.Lists.{Bytes};
ghost use Rattle.reed_solomon.specs.Code.{remainder_of, lengthened};
ghost use Rattle.nearest.specs.Near.{near_word, near_header};
ghost use Rattle.nearest.specs.Search.{sums_of, search_for};

// The codeword near a payload word, where there is one.
pub fn repair_word(own: [u8; 255], remainder: [u8; 16]) -> Option<[u8; 255]>
    requires { Bytes own × (remainder ≡ remainder_of own) }
    ensures { result ≡ near_word own }
{
    if lent::are_zeros(&remainder) {
        return Some(own);
    }
    let searched = search(own, remainder);
    // The check: at most 8 places were touched, so a codeword is near exactly where this is one.
    if lent::are_zeros(&searched.sums) {
        return Some(searched.word);
    }
    None
}

// The word that the search makes of a word, with its sums: the codeword near it, where there is one.
fn search(own: [u8; 255], remainder: [u8; 16]) -> errors::Fixed
    requires { Bytes own × (remainder ≡ remainder_of own) }
    ensures { (result.word ≡ search_for own) × (result.sums ≡ sums_of result.word) }
{
    let sums = sums::sums_at(remainder);
    let locator = locating::locate(sums);
    let wrong = places::places_of(locator);
    errors::fix_all(own, sums, &wrong)
}

// The coded header near one, where there is one, given what division leaves of it behind its 223 unsent zeros.
pub fn repair_header(own: [u8; 32], remainder: [u8; 16]) -> Option<[u8; 32]>
    requires { Bytes own × (remainder ≡ remainder_of (lengthened own)) }
    ensures { result ≡ near_header own }
{
    let word = repair_word(lengthened_of(own), remainder)?;
    // A codeword that is near by changing what was not sent is none of a header.
    if !lent::are_zeros(&word[..223]) {
        return None;
    }
    Some(sent_of(word))
}

// The word of a header.
fn lengthened_of(header: [u8; 32]) -> [u8; 255]
    ensures { result ≡ lengthened header }
{
    let mut word = [0u8; 255];
    lent::write_at(&mut word, 223, &header);
    word
}

// The bytes of a word that are sent for a header.
fn sent_of(word: [u8; 255]) -> [u8; 32]
    ensures { result ≡ drop 223 word }
{
    let mut header = [0u8; 32];
    header.copy_from_slice(&word[223..]);
    header
}
