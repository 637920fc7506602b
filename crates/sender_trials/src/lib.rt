// The kinds of record that try the sender. A record of a call gives all that goes in but the queue's bytes, and all that is expected after it; the
// queue's bytes stay from record to record.
#![tactic(auto)]

mod calls;
pub mod kinds;
pub mod queues;
mod states;
