//! What an analysis answers.

use hh_counters::{Heavy, Summary};
use hh_countmin::Table;
use thiserror::Error;

/// What an analysis of a stream comes to.
#[derive(Debug, Drop)]
pub struct Outcome {
    /// The pieces' Misra-Gries summaries, merged as the plan says.
    pub summary: Summary,
    /// The Count-Min table of the stream.
    pub table: Table,
    /// The keys above the threshold's share of the stream's total with their weights, by falling
    /// weight and then rising key.
    pub heavy: Vec<Heavy>,
}

/// Why there is no outcome.
#[derive(Clone, Copy, Debug, PartialEq, Eq, Error)]
pub enum RunError {
    /// The plan has another number of pieces than the cutting.
    #[error("the plan has another number of pieces than the cutting")]
    PlanMismatch,
    /// The allocator had no memory, or the system refused a thread.
    #[error("out of memory")]
    Memory,
}
