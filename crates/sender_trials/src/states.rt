// States and answers of the sender as the vectors hold them. A state is 18 bytes: the start 8, the used bytes of the queue 8, the number of the next frame 2.
use counts::Txfn;
use outcome::Malformed;
use refusals::Refusal;
use sender::{Counted, Sender};
use sending::Sent;
use vectors::record;

// The state at the front of these bytes, and what stands behind it.
pub fn sender(bytes: &[u8]) -> Result<(Sender, &[u8]), Malformed> {
    let (start, rest) = record::front(bytes)?;
    let (used, rest) = record::front(rest)?;
    let (next, rest) = record::front(rest)?;
    let sender = Sender {
        start: usize::from_be_bytes(start),
        used: usize::from_be_bytes(used),
        next: Txfn(u16::from_be_bytes(next)),
    };
    Ok((sender, rest))
}

// The refusal's number, 0 for none; the type of the frame that was sent, 0 where none was; the state after the call.
fn answer(number: u8, kind: u8, sender: Sender) -> [u8; 20] {
    let mut answer = [0u8; 20];
    answer[0] = number;
    answer[1] = kind;
    answer[2..10].copy_from_slice(&sender.start.to_be_bytes());
    answer[10..18].copy_from_slice(&sender.used.to_be_bytes());
    answer[18..20].copy_from_slice(&sender.next.0.to_be_bytes());
    answer
}

// What put answers. A refusal leaves the state that was given.
pub fn put_answer(found: Result<Sender, Refusal>, given: Sender) -> [u8; 20] {
    match found {
        Ok(sender) => answer(0, 0, sender),
        Err(refusal) => answer(u8::from(refusal), 0, given),
    }
}

// What waiting answers: the refusal's number, 0 for none; the packets, 8 bytes, and their bytes, 8, both 0 where it is refused.
pub fn waiting_answer(found: Result<Counted, Refusal>) -> [u8; 17] {
    let mut answer = [0u8; 17];
    match found {
        Ok(counted) => {
            answer[1..9].copy_from_slice(&counted.packets.to_be_bytes());
            answer[9..17].copy_from_slice(&counted.bytes.to_be_bytes());
        }
        Err(refusal) => answer[0] = u8::from(refusal),
    }
    answer
}

// What next_frame answers.
pub fn next_answer(found: Result<Sent, Refusal>, given: Sender) -> [u8; 20] {
    match found {
        Ok(sent) => answer(0, u8::from(sent.kind), sent.sender),
        Err(refusal) => answer(u8::from(refusal), 0, given),
    }
}
