// What a trial of vectors needs, whatever is tried: it reads records and the parts of their bodies, makes bytes from a seed, lends bytes to a call and compares
// them after it, and counts what the records came to. The contract that matters says that a count of differences never falls (`Count::with`).
#![tactic(auto)]

pub mod buffers;
pub mod count;
pub mod digest;
pub mod lent_bytes;
pub mod record;
pub mod seeded;
pub mod tally;
