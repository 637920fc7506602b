// A ledger marks blocks by their numbers.

// Numbers of blocks are below this one.
pub const BLOCKS: usize = 64;

// Blocks that follow each other: from the number `first` up to the one before `end`.
#[derive(Clone, Copy, Default)]
pub struct Blocks {
    pub first: u16,
    pub end: u16,
}

#[derive(Clone, Copy)]
pub struct Ledger {
    pub marked: [bool; BLOCKS],
}

impl Ledger {
    pub fn new() -> Ledger {
        Ledger {
            marked: [false; BLOCKS],
        }
    }

    pub fn with(mut self, number: u16) -> Ledger {
        if let Some(mark) = self.marked.get_mut(number as usize) {
            *mark = true;
        }
        self
    }

    pub fn with_all(self, blocks: Blocks) -> Ledger {
        (blocks.first..blocks.end).fold(self, Ledger::with)
    }
}

// Of the blocks that were put, how many came out exactly if no frame with a part of them was lost or refused.
pub fn as_promised(broken: &Ledger, out: &Ledger, put: u16) -> usize {
    let both = broken.marked.iter().zip(out.marked.iter());
    both.take(put as usize)
        .filter(|(is_broken, is_out)| is_broken != is_out)
        .count()
}

// Of the blocks that were put, how many are marked in both ledgers.
pub fn in_both(one: &Ledger, other: &Ledger, put: u16) -> usize {
    let both = one.marked.iter().zip(other.marked.iter());
    both.take(put as usize)
        .filter(|(is_in_one, is_in_other)| **is_in_one && **is_in_other)
        .count()
}
