// The two who read the packets that come out. The recorder keeps every block, and counts the gaps between them; the tuner works on blocks that
// follow each other, and keeps the newest run without a gap.
#![tactic(auto)]

ghost use Rattle.std.specs.Prelude.{◌≡◌, ℕ, List, [], ◌∷◌, ◌++◌, if◌then◌else◌, nat_eq};
ghost use Rattle.demo_views.specs.Views.{Records, Tunes};

// How many gaps are before a block.
fn gaps_before(number: u64, due: u64) -> u64
    ensures { result ≡ (if nat_eq number due then 0 else 1) }
{
    u64::from(number != due)
}

// Where the newest run begins once a block has come, if it began at `first` before. An `if` that picks one of two numbers: no method says it plainer.
fn first_with(number: u64, due: u64, first: u64) -> u64
    ensures { result ≡ (if nat_eq number due then first else number) }
{
    if number == due { first } else { number }
}

#[derive(Clone, Copy)]
pub struct Recorder {
    pub blocks: u64,
    pub gaps: u64,
    // The number that would follow without a gap.
    pub due: u64,
}

impl Recorder {
    pub fn new() -> Recorder
        ensures { Records [] result }
    {
        Recorder {
            blocks: 0,
            gaps: 0,
            due: 0,
        }
    }

    // With one block more.
    pub fn with(self, number: u16) -> Recorder
        ensures { (came : List ℕ) → Records came self → Records (came ++ (number ∷ [])) result }
    {
        let place = number as u64;
        let more = gaps_before(place, self.due);
        Recorder {
            blocks: self.blocks.wrapping_add(1),
            gaps: self.gaps.wrapping_add(more),
            due: place + 1,
        }
    }
}

// The newest run without a gap: the blocks from `first` up to the one before `due`.
#[derive(Clone, Copy)]
pub struct Tuner {
    pub first: u64,
    pub due: u64,
}

impl Tuner {
    pub fn new() -> Tuner
        ensures { Tunes [] result }
    {
        Tuner { first: 0, due: 0 }
    }

    // With one block more.
    #[tactic(auto, using(crate::proofs::Following::due_more, crate::proofs::Following::run_more))]
    pub fn with(self, number: u16) -> Tuner
        ensures { (came : List ℕ) → Tunes came self → Tunes (came ++ (number ∷ [])) result }
    {
        let place = number as u64;
        let first = first_with(place, self.due, self.first);
        Tuner {
            first,
            due: place + 1,
        }
    }
}
