// Whether the first record of a DATA area may be joined to what is held (01, "Receiving"; refusal 15 where not).
ghost use Rattle.std.specs.Prelude.{◌≡◌, true, List};
ghost use Rattle.std.proofs.Math.Option.{some};
ghost use Rattle.link.specs.Link.{Piece as Sent, most_joined, fits_piece, fits};
ghost use Rattle.basics.specs.Lists.{is_some};
ghost use Rattle.packing.specs.Records.{read};

use basics::sizes;
use packing::Piece;

// Whether the first record of an area that is not against the packing rules fits.
pub fn first_fits(area: &[u8], held: &[u8]) -> bool
    requires { is_some (read area.now) ≡ true }
    ensures { (pieces : List Sent) → read area.now ≡ some pieces → result ≡ fits held.now pieces }
{
    let Ok(Some(record)) = packing::record_at(area, 0) else {
        return true;
    };
    piece_fits(held, record.piece(area))
}

// Whether a piece can be joined to what is held.
fn piece_fits(held: &[u8], piece: Piece) -> bool
    ensures { result ≡ fits_piece held.now piece.entry.first piece.entry.last piece.entry.bytes.now }
{
    piece.first || held.is_empty() || held.len() + piece.bytes.len() <= most_joined(piece.last)
}

// The most bytes of a packet that is joined: 9,000 with "last", and one less without it.
fn most_joined(last: bool) -> usize
    ensures { result ≡ most_joined last }
{
    if last {
        sizes::MOST_PACKET
    } else {
        sizes::MOST_HELD
    }
}
