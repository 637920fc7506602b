// Blocks of samples: each begins with its number in two bytes, and every further byte follows from the number and its place.
ghost use Rattle.std.specs.Prelude.{◌≡◌, true, ◌+◌, ◌*◌, ◌≤◌, length};
ghost use Rattle.basics.specs.Lists.{entries};
ghost use Rattle.basics.specs.Sizes.{most_packet};
ghost use Rattle.demo_scenario.specs.Blocks.{length_of, sample_of, number_in};

// How many bytes a block has: from 50 to 4,349.
pub fn length_of(number: u16) -> usize
    ensures value { result ≡ length_of number }
    ensures small { result ≤ most_packet }
{
    50 + number as usize * 1237 % 4300
}

#[tactic(auto, unfolding(crate::specs::Blocks::sample_of))]
fn sample(number: u16, place: usize) -> u8
    ensures { result ≡ sample_of number place }
{
    let [high, low] = number.to_be_bytes();
    match place {
        0 => high,
        1 => low,
        _ => ((number as usize * 31 + place % 256 * 7) % 256) as u8,
    }
}

// Writes a block of as many bytes as are lent.
#[tactic(auto, using(crate::proofs::Samples::one_more, crate::proofs::Samples::all_written))]
pub fn write(number: u16, block: &mut [u8])
    ensures { block.new ≡ entries (sample_of number) 0 (length block.old) }
{
    for (place, byte) in block.iter_mut().enumerate() {
        *byte = sample(number, place);
    }
}

// Whether bytes are the block of a number; never where one of them differs.
#[tactic(auto, using(crate::proofs::Samples::each_sample))]
pub fn is_block(number: u16, bytes: &[u8]) -> bool
    ensures { result ≡ true → bytes.now ≡ entries (sample_of number) 0 (length_of number) }
{
    bytes.len() == length_of(number)
        && bytes
            .iter()
            .enumerate()
            .all(|(place, byte)| *byte == sample(number, place))
}

// The number of a block that came out.
#[tactic(auto, unfolding(crate::specs::Blocks::number_in))]
pub fn number_of(block: &[u8]) -> u16
    ensures { result ≡ number_in block.now }
{
    match block {
        [high, low, ..] => u16::from_be_bytes([*high, *low]),
        _ => 0,
    }
}
