// Joining the records of a DATA area to what is held, one after the other (01, "Receiving"). `fitting` judges the first before, `growing` joins each.
#![tactic(auto)]

pub mod fitting;
pub mod growing;

ghost use Rattle.joining.specs.Joining.{Joinable, JoinOutcome};

use growing::Joined;

// Joins the records of a DATA area that is not refused, in order; `before` bytes of the hold are held.
pub fn join(area: &[u8], before: usize, hold: &mut [u8], list: &mut [u8]) -> Joined
    requires { Joinable area.now before hold.old list.old }
    ensures { JoinOutcome area.now before hold.old list.old result hold.new list.new }
{
    let mut at = 0;
    let mut joined = Joined {
        held: before,
        packets: 0,
        listed: 0,
    };
    // A record tells where the next stands: no index is counted.
    while let Ok(Some(record)) = packing::record_at(area, at) {
        joined = growing::join_piece(record.piece(area), joined, hold, list);
        at = record.start + record.length;
    }
    joined
}
