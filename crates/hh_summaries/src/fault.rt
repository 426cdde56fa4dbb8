//! What summaries are refused for.

ghost use Rattle.std.specs.Prelude.{◌≡◌};
ghost use Rattle.hh_summaries.specs.declared.fault.SummaryFault.TheVariants.{Memory};

use std::alloc::AllocError;
use thiserror::Error;

/// Why there is no such summary, or an item or a summary was not taken in: the first of these that
/// holds. A call's contract says which of them it answers.
#[derive(Clone, Copy, Debug, PartialEq, Eq, Error)]
pub enum SummaryFault {
    /// k is not 1 to [`MAX_K`](crate::MAX_K).
    #[error("k must be 1 to 65535")]
    BadK,
    /// The two summaries have different k.
    #[error("the summaries have different k")]
    DifferentK,
    /// The total would be above 2^63 - 1.
    #[error("the total would be above 2^63 - 1")]
    TotalTooLarge,
    /// The allocator had no memory.
    #[error("out of memory")]
    Memory,
}

impl From<AllocError> for SummaryFault {
    ghost from_gives = { λ _ fault. fault ≡ Memory };

    fn from(_: AllocError) -> SummaryFault {
        SummaryFault::Memory
    }
}
