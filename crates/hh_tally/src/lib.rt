//! Exact sums of weights by key in bounded memory: counters that are lowered in batches, which
//! bound the weight of each key and find those that can be heavy.
#![tactic(auto)]

pub mod laws;
mod lowering;
mod room;
mod tally;
mod weighing;

pub use room::{MAX_KEYS, Room};
pub use tally::Tally;
