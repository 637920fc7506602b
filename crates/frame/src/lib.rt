// A header and an area built into a frame of 2,081 bytes. `opening` is the way back.
#![tactic(auto)]

mod coding;

ghost use Rattle.std.specs.Prelude.{◌≡◌, ◌≤◌, length};
ghost use Rattle.basics.specs.Sizes.{frame_size};
ghost use Rattle.lent.specs.Written.{written};
ghost use Rattle.frame.specs.Frame.{frame_bytes};

use basics::sizes;
pub use coding::{area_check, preamble};
use header::Header;

// Builds the frame of a header and an area of 1,908 bytes at the front of out.
#[tactic(auto, unfolding(crate::specs::Frame::frame_bytes_with))]
pub fn build(taps: u32, header: Header, area: &[u8; sizes::AREA_SIZE], out: &mut [u8])
    requires { frame_size ≤ length out.old }
    ensures { out.new ≡ written out.old 0 (frame_bytes taps header area.now) }
{
    lent::write_at(out, 0, &coding::preamble());
    coding::fill_part(taps, header, area, &mut out[9..sizes::FRAME_SIZE]);
}
