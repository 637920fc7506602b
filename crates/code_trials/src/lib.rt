// The kinds of record that try the codes, and the check values that are published of them.
#![tactic(auto)]

mod codes;
mod forms;
pub mod kinds;
pub mod published;
