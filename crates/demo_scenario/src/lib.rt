// What the demonstration plays: a beam that is shaken, and blocks of samples that travel through it as packets.
#![tactic(auto)]

pub mod beam;
pub mod blocks;
