//! Weighted streams analysed by threads: plans to merge summaries by, and two passes over the
//! pieces of a stream, whose outcome is the same whatever worker does which piece.
#![tactic(auto)]

mod analysis;
mod first;
pub mod laws;
mod merging;
mod options;
mod outcome;
mod second;

pub use analysis::analyse;
pub use first::{first_pass, first_pass_sequentially};
pub use hh_stream::PieceFault;
pub use hh_workers::{CutStream, Gate, MAX_WORKERS, OpenGate, Pieces, Plan};
pub use merging::merge_by;
pub use options::{Options, OptionsFault};
pub use outcome::{Outcome, RunError};
pub use second::{second_pass, second_pass_sequentially};
