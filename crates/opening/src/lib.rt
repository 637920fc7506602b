// A frame that arrived, opened: judged, and read back to its header and its area.
#![tactic(auto)]

mod judging;

ghost use Rattle.std.specs.Prelude.{◌≡◌, ◌≤◌, length, IfOk, IsErr};
ghost use Rattle.basics.specs.Sizes.{area_size};
ghost use Rattle.lent.specs.Written.{written};
ghost use Rattle.opening.specs.Opening.{area_part, OpenOutcome};

use header::Header;
use refusals::Refusal;
use repairing::body;

// What is read of a frame that is accepted, beside its area.
#[derive(Clone, Copy)]
pub struct Opened {
    pub header: Header,
    // How many bytes of the frame were repaired.
    pub repaired: u8,
}

// Opens a frame: repairs it in a copy, answers its header and how many bytes were wrong, and writes its area to the front of a buffer of at least 1,908
// bytes. Refusals: 1, 2, 7 to 9, 11 to 13.
pub fn open(taps: u32, frame: &[u8], area: &mut [u8]) -> Result<Opened, Refusal>
    ensures { OpenOutcome taps frame.now area.old result area.new }
{
    judging::judge_outside(taps, frame, area)?;
    let mut body = [0; 2072];
    judging::unscramble(taps, frame, &mut body);
    let near = body::repair_body(&mut body);
    let judged = judging::judge_inside(near.header, near.words, &body);
    write_area(judged, &body, area);
    judged?;
    Ok(Opened {
        header: header_reading::header_of(judging::header_part(&body)),
        repaired: near.wrong,
    })
}

// Writes the area that follows the coded header to the front of the buffer, where the frame is not refused.
fn write_area(judged: Result<(), Refusal>, body: &[u8; 2072], area: &mut [u8])
    requires { area_size ≤ length area.old }
    ensures written { IfOk judged (λ done. area.new ≡ written area.old 0 (area_part body.now)) }
    ensures kept { IsErr judged → area.new ≡ area.old }
{
    match judged {
        Ok(()) => lent::write_at(area, 0, &body[32..judging::AREA_END]),
        Err(_) => {}
    }
}
