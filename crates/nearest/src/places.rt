// The places of a word at whose numbers the error locator is 0. All numbers are tried at once, 256 and not 255, so that the loops become lanes;
// place 255 has the number of place 0, and is never read.
ghost use Rattle.std.specs.Prelude.{◌≡◌, ◌++◌, ◌<◌, ◌≤◌, ◌+◌, ◌-◌, length, take, drop};
ghost use Rattle.nearest.specs.Search.{places, locators};

use crate::values;

// Places of a word, and their numbers: the first `count` of each array. There is no heap for a list, and at most 8 are found. Two arrays,
// since the numbers of the others go on as a slice of bytes.
#[derive(Clone, Copy)]
pub struct Places {
    pub count: usize,
    pub at: [usize; 8],
    pub numbers: [u8; 8],
    ghost room: { count ≤ 8 },
    ghost numbered: { take count numbers ≡ locators (take count at) },
}

impl Places {
    // The numbers of all places but the one at an index: the first `count - 1`.
    pub fn others(&self, index: usize) -> [u8; 8]
        requires { index < self.now.count }
        ensures { take (self.now.count - 1) result ≡ take index self.now.numbers ++ drop (index + 1) (take self.now.count self.now.numbers) }
    {
        let mut others = self.numbers;
        others.copy_within(index + 1..self.count, index);
        others
    }
}

// The places at which a polynomial is 0. The numbers of the places 0 to 255: each is 2^11, which is 173, times the one before.
pub fn places_of(polynomial: [u8; 9]) -> Places
    requires { length (places 255 polynomial) ≤ 8 }
    ensures { take result.count result.at ≡ places 255 polynomial }
{
    let all: [u8; 256] = values::progression(1, 173);
    let values = values::values_at(all, &polynomial);
    let mut at = [0usize; 8];
    let mut numbers = [0u8; 8];
    let mut count: usize = 0;
    for n in (0..255).rev() {
        if values[n] == 0 {
            at[count] = n;
            numbers[count] = all[n];
            count += 1;
        }
    }
    Places { count, at, numbers }
}
