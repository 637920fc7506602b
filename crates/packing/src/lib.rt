// The bench's own packing: reading the records of a DATA area. What an area may hold is `Allowed` in specs/Rules.antt, what a frame takes from the queue is
// `fill`, which crate sender writes (`filling`).
#![tactic(auto)]

ghost use Rattle.std.specs.Prelude.{◌≡◌, ◌+◌, ◌<◌, ◌≤◌, length, take, drop, is_ok};
ghost use Rattle.basics.specs.Lists.{is_some};
ghost use Rattle.basics.specs.Sizes.{area_size};
ghost use Rattle.packing.specs.Records.{all_zero, end_at, record_at, read};

use basics::sizes;
use marks::records;
use refusals::Refusal;

// A record: the marks of its piece, and where its bytes stand in the area.
#[derive(Clone, Copy)]
pub struct Record {
    pub first: bool,
    pub last: bool,
    pub start: usize,
    pub length: usize,
}

// A piece of a packet, as a record of an area carries it.
#[derive(Clone, Copy)]
pub struct Piece<'a> {
    pub first: bool,
    pub last: bool,
    pub bytes: &'a [u8],
}

impl Record {
    // The piece that stands in the area.
    pub fn piece(self, area: &[u8]) -> Piece<'_>
        requires { self.start + self.length ≤ length area.now }
        ensures first { result.first ≡ self.first }
        ensures last { result.last ≡ self.last }
        ensures bytes { result.bytes.now ≡ take self.length (drop self.start area.now) }
    {
        Piece {
            first: self.first,
            last: self.last,
            bytes: &area[self.start..self.start + self.length],
        }
    }
}

// Whether the records of an area are allowed (refusal 14 where not).
pub fn is_allowed(area: &[u8]) -> bool
    ensures { result ≡ is_some (read area.now) }
{
    area.len() == sizes::AREA_SIZE && read_through(area).is_ok()
}

// Goes from record to record of an area, up to their end or to what is against the rules. A record tells where the next stands: no index is counted.
fn read_through(area: &[u8]) -> Result<(), Refusal>
    requires { length area.now ≡ area_size }
    ensures { is_ok result ≡ is_some (read area.now) }
{
    let mut at = 0;
    while let Some(record) = record_at(area, at)? {
        at = record.start + record.length;
    }
    Ok(())
}

// What stands at a position: a record, or none where the records end. The next record's position is start + length. Refusal: 14. (Not inlined, it takes twice
// the instructions for each record.)
#[inline(always)]
pub fn record_at(area: &[u8], at: usize) -> Result<Option<Record>, Refusal>
    ensures { result ≡ record_at area.now at }
{
    let total = area.len();
    if total < 3 || total - 3 < at {
        return end_at(area, at);
    }
    let mark = marks::mark_at(area, at);
    if mark == 0 {
        return end_at(area, at);
    }
    if !records::is_mark(at, total - at, mark) {
        return Err(Refusal::Packing);
    }
    Ok(Some(Record {
        first: mark / sizes::FIRST_BIT % 2 == 1,
        last: mark / sizes::LAST_BIT % 2 == 1,
        start: at + 2,
        length: mark % 2048,
    }))
}

// Where the records end, all bytes are 0, and a record stands before.
#[tactic(auto, unfolding(crate::specs::Records::end_at))]
fn end_at(area: &[u8], at: usize) -> Result<Option<Record>, Refusal>
    ensures { result ≡ end_at area.now at }
{
    if at == 0 || !are_zeros(area, at) {
        return Err(Refusal::Packing);
    }
    Ok(None)
}

// Whether all bytes from a position on are 0. Behind the area there are none, where no part begins that `are_zeros` of crate lent could be given.
fn are_zeros(area: &[u8], at: usize) -> bool
    ensures { result ≡ all_zero (drop at area.now) }
{
    area.iter().skip(at).all(|byte| *byte == 0)
}
