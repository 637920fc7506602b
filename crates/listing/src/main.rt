// The listing program: opens frames from standard input, applies them to one receiver, fresh at the start, and prints a line for each
// (01, end of "Numbers to try"). What a line says, and what a receiver does, is library code with contracts; here is only reading and printing.
// Where the listing is not complete it says so on standard error, and ./list_frames heeds that; its status is 0 all the same.
#![tactic(auto)]

ghost use Rattle.std.specs.Prelude.{◌≤◌};
ghost use Rattle.basics.specs.Sizes.{frame_size};

mod ending;
mod input;

use basics::sizes;
use ending::{Ending, Incomplete};
use receiver::Receiver;
use std::io;
use std::io::{Read, Write};
use std::ops::ControlFlow;

// Taps 0 and 3.
const TAPS: u32 = 0b1001;

// The receiver, and the memory that reading, opening and applying a frame take.
#[derive(Drop)]
struct Listing {
    receiver: Receiver,
    frame: [u8; sizes::FRAME_SIZE],
    area: [u8; sizes::AREA_SIZE],
    hold: [u8; sizes::HOLD_SIZE],
    list: [u8; sizes::LIST_SIZE],
}

impl Listing {
    fn fresh() -> Listing {
        Listing {
            receiver: Receiver::fresh(),
            frame: [0; sizes::FRAME_SIZE],
            area: [0; sizes::AREA_SIZE],
            hold: [0; sizes::HOLD_SIZE],
            list: [0; sizes::LIST_SIZE],
        }
    }

    // Opens as much of the frame as there is, applies what was opened, and prints the line of it.
    fn list_frame<W: Write>(&mut self, out: &mut W, place: u64, length: usize) -> io::Result<()>
        requires { length ≤ frame_size }
    {
        let mut line = [0u8; 96];
        let end = match opening::open(TAPS, &self.frame[..length], &mut self.area) {
            Ok(opened) => {
                let header = opened.header;
                let answer = receiver::apply(
                    header,
                    &self.area,
                    self.receiver,
                    &mut self.hold,
                    &mut self.list,
                );
                self.receiver = listing_lines::receiver_after(self.receiver, answer);
                listing_lines::write_line(&mut line, place, header, answer.map_err(u8::from))
            }
            Err(refusal) => listing_lines::write_refused(&mut line, place, u8::from(refusal)),
        };
        out.write_all(&line[..end])
    }

    // Reads the next frame and lists it. A piece that is shorter than a frame is the last one; of one that could not be read there is no line.
    fn list_next<R: Read, W: Write>(
        &mut self,
        input: &mut R,
        out: &mut W,
        place: u64,
    ) -> ControlFlow<Ending> {
        match input::read_frame(input, &mut self.frame) {
            Ok(0) => ControlFlow::Break(Ok(())),
            Ok(length) => {
                let printed = self.list_frame(out, place, length);
                ending::after_line(printed, length == sizes::FRAME_SIZE)
            }
            Err(_) => ControlFlow::Break(Err(Incomplete::NotRead)),
        }
    }
}

// Prints the head line.
fn print_head<W: Write>(out: &mut W) -> io::Result<()> {
    let mut head = [0u8; 96];
    let end = listing_lines::write_head(&mut head);
    out.write_all(&head[..end])
}

// Prints the head line, and a line for each frame. A proved loop has to end, and nothing says that the input does: this one ends where the place has no
// number any more, after 2^64 - 1 frames, with what follows not read.
fn list_capture<R: Read, W: Write>(input: &mut R, out: &mut W) -> Ending {
    print_head(out).map_err(|_| Incomplete::NotPrinted)?;
    let mut listing = Listing::fresh();
    for place in 0..u64::MAX {
        if let ControlFlow::Break(ending) = listing.list_next(input, out, place) {
            return ending;
        }
    }
    Err(Incomplete::NotRead)
}

fn main(rt: HostRuntime) -> io::Result<()> {
    let mut input = rt.stdin();
    let mut out = io::writer(&rt);
    let listed = list_capture(&mut input, &mut out);
    // The library closes no stream: flushing is the last that is asked of one, and answers as close does. An error that a disk tells only at the close is not
    // heard.
    match ending::after_close(listed, out.flush()) {
        Ok(()) => Ok(()),
        Err(incomplete) => eprintln!(&rt; "{incomplete}"),
    }
}
