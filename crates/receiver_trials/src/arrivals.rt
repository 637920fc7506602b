// The kinds of record that try open and apply, one after the other on a frame, and apply alone.
use crate::{buffers, states};
use basics::sizes;
use header_trials::fields;
use outcome::{Malformed, Outcome};
use receiver::Receiver;
use vectors::buffers::Buffers;
use vectors::{lent_bytes, record};

// The part of a record that both kinds have: the state, the lengths of the bytes, of hold and list, and what is expected.
#[derive(Drop)]
struct Arrival<'a> {
    receiver: Receiver,
    length: usize,
    hold: usize,
    list: usize,
    answer: [u8; 54],
    // The digests of hold and list, and then what the record has beside these.
    digests: [u8; 16],
    rest: &'a [u8],
}

impl Arrival<'_> {
    fn of(body: &[u8]) -> Result<Arrival<'_>, Malformed> {
        let (receiver, rest) = states::receiver(body)?;
        let (length, rest) = record::length(rest)?;
        let (hold, rest) = record::length(rest)?;
        let (list, rest) = record::length(rest)?;
        let (answer, rest) = record::front(rest)?;
        let (digests, rest) = record::front(rest)?;
        Ok(Arrival {
            receiver,
            length,
            hold,
            list,
            answer,
            digests,
            rest,
        })
    }
}

// A frame is opened into bytes that are lent for its area, and the first 1,908 of them are applied. After a refusal nothing is applied.
fn opened_and_applied(
    taps: u32,
    frame: &[u8],
    receiver: Receiver,
    hold: &mut [u8],
    list: &mut [u8],
) -> [u8; 54] {
    let mut area = lent_bytes::kept();
    let opened = opening::open(taps, frame, &mut area);
    match opened {
        Ok(opened) => {
            let applied = receiver::apply(
                opened.header,
                &area[0..sizes::AREA_SIZE],
                receiver,
                hold,
                list,
            );
            states::answer(&fields::answer(Ok(opened.header)), applied, receiver)
        }
        Err(refusal) => states::refused(refusal, receiver),
    }
}

// Taps, the state, the lengths of frame, hold and list; the answer, the digests of hold and list; changes to the frame at hand, which then arrives.
pub fn arrived(body: &[u8], buffers: &mut Buffers) -> Outcome {
    let (taps, rest) = record::front(body)?;
    let given = Arrival::of(rest)?;
    let frame = lent_bytes::changed(&buffers.at_hand, given.rest);
    let found = opened_and_applied(
        u32::from_be_bytes(taps),
        frame.get(..given.length).ok_or(Malformed)?,
        given.receiver,
        buffers.hold.get_mut(..given.hold).ok_or(Malformed)?,
        buffers.list.get_mut(..given.list).ok_or(Malformed)?,
    );
    outcome::both(
        outcome::of(&found, &given.answer),
        buffers::outcome(buffers, &given.digests),
    )
}

// The fields of a header, the state, the lengths of area, hold and list; the answer, the digests of hold and list; the area without the zeros at its end.
// An area has no fields in its answer: its header is given.
pub fn applied(body: &[u8], buffers: &mut Buffers) -> Outcome {
    let (header, rest) = fields::front(body)?;
    let given = Arrival::of(rest)?;
    if sizes::AREA_SIZE < given.rest.len() {
        return Err(Malformed);
    }
    let area = lent_bytes::kept_behind(&lent_bytes::zeros_behind(given.rest));
    let found = receiver::apply(
        header,
        area.get(..given.length).ok_or(Malformed)?,
        given.receiver,
        buffers.hold.get_mut(..given.hold).ok_or(Malformed)?,
        buffers.list.get_mut(..given.list).ok_or(Malformed)?,
    );
    outcome::both(
        outcome::of(
            &states::answer(&[0; 25], found, given.receiver),
            &given.answer,
        ),
        buffers::outcome(buffers, &given.digests),
    )
}
