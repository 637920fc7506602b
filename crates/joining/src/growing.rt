// One piece, a record's, joined to what is held: a whole packet goes to the list, an unfinished one to the hold (01, "Receiving").
ghost use Rattle.std.specs.Prelude.{◌≡◌, [], ◌∷◌, ◌++◌, ◌+◌, ◌≤◌, ◌<◌, length, take};
ghost use Rattle.lent.specs.Written.{written};
ghost use Rattle.link.specs.Link.{on_piece};
ghost use Rattle.link.specs.Store.{layout_packets};
ghost use Rattle.joining.specs.Growing.{grown, Ready, Growable, StepOutcome};

use packing::Piece;

// What is held after a frame, how many packets it completed, and how many bytes of the list they take. The hold and the list go beside it and not in it, for
// they are lent for one call, and a receiver that is copied holds no borrow.
#[derive(Clone, Copy)]
pub struct Joined {
    pub held: usize,
    pub packets: usize,
    pub listed: usize,
}

// Joins one piece: "first" drops a held part; without it, and with nothing held, the piece is skipped.
pub fn join_piece(piece: Piece, before: Joined, hold: &mut [u8], list: &mut [u8]) -> Joined
    requires { Ready piece.first piece.last piece.bytes.now before hold.old list.old }
    ensures { StepOutcome (on_piece (take before.held hold.old) piece.entry.first piece.entry.last piece.entry.bytes.now)
        before hold.old list.old result hold.new list.new }
{
    if piece.first {
        return grow(0, piece, before, hold, list);
    }
    if before.held == 0 {
        return before;
    }
    grow(before.held, piece, before, hold, list)
}

// Joins a piece to the first `part` bytes of the hold: a whole packet goes to the list, an unfinished one to the hold.
fn grow(part: usize, piece: Piece, before: Joined, hold: &mut [u8], list: &mut [u8]) -> Joined
    requires { Growable part piece.last piece.bytes.now before hold.old list.old }
    ensures { StepOutcome (grown (take part hold.old) piece.entry.last piece.entry.bytes.now)
        before hold.old list.old result hold.new list.new }
{
    let length = part + piece.bytes.len();
    if piece.last {
        write_entry(list, before.listed, &hold[..part], piece.bytes);
        return Joined {
            held: 0,
            packets: before.packets + 1,
            listed: before.listed + 2 + length,
        };
    }
    lent::write_at(hold, part, piece.bytes);
    Joined {
        held: length,
        ..before
    }
}

// Writes an entry of the list: the length of a packet, what was held of it, and its last record.
fn write_entry(list: &mut [u8], at: usize, held: &[u8], rest: &[u8])
    requires { (at + 2 + length held.now + length rest.now ≤ length list.old) × (length held.now + length rest.now < 65536) }
    ensures { list.new ≡ written list.old at (layout_packets ((held.now ++ rest.now) ∷ [])) }
{
    let length = held.len() + rest.len();
    let mark = marks::bytes_of(length);
    lent::write_at(list, at, &mark);
    lent::write_at(list, at + 2, held);
    lent::write_at(list, at + 2 + held.len(), rest);
}
