// What the trial of a record comes to. Bytes that differ are never called the same.
#![tactic(auto)]

ghost use Rattle.std.specs.Prelude.{◌↔◌, ◌≡◌, true};

// The record does not have the form of its kind.
#[derive(Clone, Copy, Debug, PartialEq, Eq)]
pub struct Malformed;

// Whether what was found is what was expected.
pub type Outcome = Result<bool, Malformed>;

// Whether the bytes found are those expected, all of them and no others.
pub fn of(found: &[u8], expected: &[u8]) -> Outcome
    ensures { (result ≡ Ok true) ↔ (found.now ≡ expected.now) }
{
    Ok(found == expected)
}

// What two results of one record come to: the same only where both are.
pub fn both(first: Outcome, second: Outcome) -> Outcome
    ensures { (result ≡ Ok true) ↔ ((first ≡ Ok true) × (second ≡ Ok true)) }
{
    Ok(first? && second?)
}
