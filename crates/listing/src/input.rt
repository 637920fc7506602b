// The input, a frame at a time. Unlike `read_exact`, it tells a read that fails from the end of the input.
ghost use Rattle.listing.specs.Input.{Within, EndsShort};

use std::io;

// Reads the next frame, and answers how many bytes of it there are: fewer than a frame only where the input ends. A read may bring less than is asked, as from
// a pipe: it is asked until the frame is whole or the input ends. A `while`, since each turn goes on by as many bytes as came.
pub fn read_frame<R: io::Read>(input: &mut R, frame: &mut [u8]) -> io::Result<usize>
    ensures within { Within result frame.new }
    ensures ends { EndsShort result frame.new (R.remaining input.new) }
{
    let mut done = 0;
    while done < frame.len() {
        match input.read(&mut frame[done..])? {
            0 => break,
            more => done += more,
        }
    }
    Ok(done)
}
