//! Claims and sums that threads share without a lock: a claim goes to one seat at most, and who
//! holds every claim closes with the exact sums of what was added.
#![tactic(auto)]

mod rule;
mod sums;

pub use sums::{MAX_CELLS, MAX_CLAIMS, SharedSums, SumSeat};
