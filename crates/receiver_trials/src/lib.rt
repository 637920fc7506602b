// The kinds of record that try the receiver and the reading of its list. A record of a call gives all that goes in but the bytes of hold and list, and
// all that is expected after it; these bytes stay from record to record.
#![tactic(auto)]

mod arrivals;
pub mod buffers;
mod entries;
pub mod kinds;
mod states;
