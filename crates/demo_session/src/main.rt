// A session over a shaken beam: blocks of samples are put as packets, frames are built, lost, damaged, repaired or refused, and packets come out.
#![tactic(auto)]

mod far_end;
mod near_end;
mod readers;

use basics::sizes;
use far_end::FarEnd;
use near_end::NearEnd;
use std::io;
use std::io::Write;

// The scrambler's taps 0 and 3.
const TAPS: u32 = 0b1001;

const FRAMES: u16 = 64;

fn print_head<W: Write>(out: &mut W) -> io::Result<()> {
    write!(
        out,
        "\
Blocks of samples travel as packets through a shaken beam, 64 frames.
Where the beam is off by 29, five bytes of a frame are wrong, and one more with each step: up to
eight of one word are repaired, in the preamble none. Where it is off by 37 or more, the frame is lost.

              put                                                                 recorder    tuner
frame  shake  block bytes  carries    arrival               missed  out           kept  gaps  newest run"
    )
}

fn play<W: Write>(out: &mut W) -> io::Result<()> {
    let mut frame = [0u8; sizes::FRAME_SIZE];
    let mut near = NearEnd::fresh();
    let mut far = FarEnd::fresh();
    print_head(out)?;
    for count in 0..FRAMES {
        near.next(out, count, &mut frame)?;
        far.arrive(out, near.blocks, count, &mut frame)?;
    }
    far.print_totals(out, near.put)
}

fn main(rt: HostRuntime) -> io::Result<()> {
    let mut out = io::writer(&rt);
    play(&mut out)
}
