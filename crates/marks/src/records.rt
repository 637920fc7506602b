// The mark of a record: whether it may stand where it stands (01, "Packing, the bench's own").
ghost use Rattle.std.specs.Prelude.{◌≡◌};
ghost use Rattle.marks.specs.Mark.{may_begin, may_end, is_mark};

use basics::sizes;

// The five bits above the length where a record is a whole packet: "first" and "last", and three that are zero.
const WHOLE_PACKET: usize = (sizes::FIRST_BIT + sizes::LAST_BIT) / 2048;

// Whether a mark may stand at a position of the area, with `room` bytes from it to the area's end. Most records are whole packets, for which one test of the
// bits does: without it the loop over records takes 33 instructions for each in place of 22.
#[tactic(auto, unfolding(crate::specs::Mark::is_mark))]
pub fn is_mark(at: usize, room: usize, mark: usize) -> bool
    ensures { result ≡ is_mark at room mark }
{
    let length = mark % 2048;
    if length < 1 || room < 2 + length {
        return false;
    }
    if mark / 2048 == WHOLE_PACKET {
        return true;
    }
    mark / 2048 % 8 == 0 && may_begin(at, mark) && may_end(room, mark)
}

// Only the first record may lack "first".
#[tactic(auto, unfolding(crate::specs::Mark::may_begin))]
fn may_begin(at: usize, mark: usize) -> bool
    ensures { result ≡ may_begin at mark }
{
    mark / sizes::FIRST_BIT % 2 == 1 || at == 0
}

// Only one that ends the area may lack "last".
#[tactic(auto, unfolding(crate::specs::Mark::may_end))]
fn may_end(room: usize, mark: usize) -> bool
    ensures { result ≡ may_end room mark }
{
    mark / sizes::LAST_BIT % 2 == 1 || 2 + mark % 2048 == room
}
