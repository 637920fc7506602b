// The refusals of paper 01, which all calls share: each is an error with its number in the paper's table.
#![tactic(auto)]

ghost use Rattle.std.specs.Prelude.{◌≡◌};
ghost use Rattle.refusals.specs.Numbers.{number_of};

// Why a call refuses (01, "Refusal numbers"). Number 10, a reserved bit that is 0, is given no more since 02, M-100.
#[derive(Clone, Copy, Debug, PartialEq, Eq)]
pub enum Refusal {
    Taps = 1,
    Length = 2,
    State = 3,
    PacketLength = 4,
    NoRoom = 5,
    Field = 6,
    Preamble = 7,
    HeaderCode = 8,
    HeaderCheckSum = 9,
    FieldRule = 11,
    PayloadCode = 12,
    PayloadCheckSum = 13,
    Packing = 14,
    TooLong = 15,
    ListEntry = 16,
}

// The paper's number.
impl From<Refusal> for u8 {
    ghost from_gives = { λ refusal number. number ≡ number_of refusal };

    fn from(refusal: Refusal) -> u8 {
        refusal as u8
    }
}
