// The kinds of record that try the level and the bare header; and a header as all vectors hold it (`fields`).
#![tactic(auto)]

pub mod fields;
mod headers;
pub mod kinds;
mod messages;
