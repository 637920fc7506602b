// The recurrence of a setting: the places of its taps, and sums of numbers that stand at them.
ghost use Rattle.std.specs.Prelude.{◌≡◌, ◌*◌, ◌≤◌, length, take};
ghost use Rattle.scrambler.specs.Keys.{places_from, Sums};

// The taps, and in front of `places` the places of those that are set: no heap is allowed, so the count stands beside an array.
#[derive(Drop)]
pub struct Recurrence {
    pub taps: u32,
    places: [usize; 25],
    count: usize,
    ghost few: { count ≤ 25 },
    ghost listed: { take count places ≡ places_from 25 0 taps },
}

impl Recurrence {
    // The recurrence of these taps.
    pub fn of(taps: u32) -> Recurrence
        ensures { result.taps ≡ taps }
    {
        let mut places = [0usize; 25];
        let mut count: usize = 0;
        let mut rest = taps;
        for place in 0..25 {
            places[count] = place; // kept if the tap is set: no branch
            count += (rest % 2) as usize;
            rest = rest / 2;
        }
        Recurrence {
            taps,
            places,
            count,
        }
    }

    // The sums of every N-th of 25 N numbers at the places: from each of the first N on. One function for N of 1 and of 2, so that the compiler knows N: two
    // neighbours are one lane.
    pub fn sums_of<const N: usize>(&self, numbers: &[u64]) -> [u64; N]
        requires { length numbers.now ≡ 25 * N }
        ensures { Sums N (places_from 25 0 self.now.taps) numbers.now result }
    {
        let mut sums = [0u64; N];
        for &place in &self.places[..self.count] {
            for i in 0..N {
                sums[i] ^= numbers[N * place + i];
            }
        }
        sums
    }
}
