// The words that every crate uses, and their laws: lists of bytes, numbers, sums modulo 2, tests over a table; and the sizes, which are all its code.
#![tactic(auto)]

pub mod sizes;
