// The beam: how far it is off its target at each frame, and what that does to the frame.
ghost use Rattle.std.specs.Prelude.{◌≡◌, ◌-◌, ◌≤◌, ◌<◌, length};
ghost use Rattle.basics.specs.Sizes.{frame_size};
ghost use Rattle.demo_scenario.specs.Beam.{wave_at, shake_at, fate_at, wrong_at, hit_at, damaged_at, arriving_at};

use basics::sizes;

#[derive(Clone, Copy)]
pub enum Fate {
    Arrives,
    Damaged,
    Lost,
}

// Where a damaged frame is hit: the place of the first wrong byte, and how far each further one is behind the one before.
#[derive(Clone, Copy)]
pub struct Hit {
    pub first: usize,
    pub apart: usize,
}

// A wave that rises by one a frame and falls again.
#[tactic(auto, unfolding(crate::specs::Beam::wave_at))]
fn wave(frame: u64, period: u64) -> u64
    requires { 0 < period }
    ensures value { result ≡ wave_at frame period }
    ensures low { result ≤ period }
{
    let place = frame % period;
    place.min(period - place)
}

// How far the beam is off at a frame: three waves together.
pub fn shake_at(frame: u16) -> u64
    ensures value { result ≡ shake_at frame }
    ensures small { result ≤ 101 }
{
    let at = frame as u64;
    2 * wave(at + 1, 22) + 5 * wave(at + 5, 9) + 3 * wave(at, 4)
}

#[tactic(auto, unfolding(crate::specs::Beam::fate_at))]
pub fn fate_of(shake: u64) -> Fate
    ensures { result ≡ fate_at shake }
{
    match shake {
        0..29 => Fate::Arrives,
        29..37 => Fate::Damaged,
        37.. => Fate::Lost,
    }
}

// How many bytes of a damaged frame are wrong.
fn wrong_in(frame: u16) -> u64
    ensures value { result ≡ wrong_at frame }
    ensures few { result ≤ 77 }
{
    shake_at(frame).saturating_sub(24)
}

// Every sixteenth is hit from its first byte on, in its preamble first; of the others, one in its coded header and the next in a word of its payload.
#[tactic(auto, unfolding(crate::specs::Beam::hit_at))]
fn hit_of(frame: u16) -> Hit
    ensures value { result ≡ hit_at frame }
    ensures inside { (result.first ≤ 1041) × (result.apart ≤ 8) }
{
    if frame % 16 == 1 {
        return Hit { first: 0, apart: 1 };
    }
    if frame % 2 == 0 {
        return Hit { first: 9, apart: 1 };
    }
    Hit {
        first: 1041,
        apart: 8,
    }
}

// Damages a frame: every bit of each wrong byte is turned. By an index, as the scenario gives its places.
pub fn damage(frame: u16, bytes: &mut [u8])
    requires { frame_size ≤ length bytes.old }
    ensures { bytes.new ≡ damaged_at frame bytes.old }
{
    let hit = hit_of(frame);
    for wrong in 0..wrong_in(frame) as usize {
        let place = hit.first + hit.apart * wrong;
        bytes[place] = !bytes[place];
    }
}

// How many bytes of a damaged frame arrive: every sixteenth one is cut short.
pub fn arriving(frame: u16) -> usize
    ensures { result ≡ arriving_at frame }
{
    if frame % 16 == 4 {
        2000
    } else {
        sizes::FRAME_SIZE
    }
}
