// What the demonstration tells: the lines of its table, ledgers of blocks, and totals.
#![tactic(auto)]

pub mod ledger;
pub mod table;
pub mod totals;

// The first bytes of a buffer, or all where there are fewer.
pub fn front(bytes: &[u8], count: usize) -> &[u8] {
    &bytes[..count.min(bytes.len())]
}
