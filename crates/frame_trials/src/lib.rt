// The kinds of record that try whole frames, and the repair of their bytes.
#![tactic(auto)]

pub mod frames;
pub mod kinds;
mod repairs;
