//! The keys of the greatest weight, exactly: chosen by a tally, and then counted.
#![tactic(auto)]

mod choice;
pub mod laws;
mod rooms;

pub use choice::Shortlist;
pub use rooms::{counted_in, once_room, shared_room, whole_room};
