// States and answers of the receiver as the vectors hold them. A state is 11 bytes: whether a frame is expected, its number 2 (0 for none), the bytes
// held 8.
use counts::Txfn;
use outcome::Malformed;
use receiver::{Applied, Receiver};
use refusals::Refusal;
use vectors::record;

// The state at the front of these bytes, and what stands behind it.
pub fn receiver(bytes: &[u8]) -> Result<(Receiver, &[u8]), Malformed> {
    let ([is_expected], rest) = record::front::<1>(bytes)?;
    let (number, rest) = record::front(rest)?;
    let (held, rest) = record::front(rest)?;
    let expected = (is_expected != 0).then_some(Txfn(u16::from_be_bytes(number)));
    let held = usize::from_be_bytes(held);
    Ok((Receiver { expected, held }, rest))
}

fn expected_bytes(expected: Option<Txfn>) -> [u8; 3] {
    match expected {
        None => [0; 3],
        Some(number) => {
            let [high, low] = number.0.to_be_bytes();
            [1, high, low]
        }
    }
}

// The head of an answer, and behind it the frames missed 2, the packets 8, the bytes of the list 8, the state after the call.
fn joined(head: &[u8; 25], applied: Applied) -> [u8; 54] {
    let receiver = applied.receiver;
    let mut answer = [0u8; 54];
    // By `write_at`: behind two `copy_from_slice` into 54 bytes the search for a proof no longer finds their length (tried).
    lent::write_at(&mut answer, 0, head);
    lent::write_at(&mut answer, 25, &applied.missed.to_be_bytes());
    lent::write_at(&mut answer, 27, &applied.packets.to_be_bytes());
    lent::write_at(&mut answer, 35, &applied.listed.to_be_bytes());
    lent::write_at(&mut answer, 43, &expected_bytes(receiver.expected));
    lent::write_at(&mut answer, 46, &receiver.held.to_be_bytes());
    answer
}

// A refusal's number, and the state that was given, which it leaves.
pub fn refused(refusal: Refusal, given: Receiver) -> [u8; 54] {
    let mut head = [0u8; 25];
    head[0] = u8::from(refusal);
    let nothing = Applied {
        missed: 0,
        packets: 0,
        listed: 0,
        receiver: given,
    };
    joined(&head, nothing)
}

// What apply answers: its numbers behind this head, or its refusal.
pub fn answer(head: &[u8; 25], found: Result<Applied, Refusal>, given: Receiver) -> [u8; 54] {
    match found {
        Ok(applied) => joined(head, applied),
        Err(refusal) => refused(refusal, given),
    }
}
