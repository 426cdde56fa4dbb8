//! What keys, items and cuttings are refused for.

ghost use Rattle.std.specs.Prelude.{◌≡◌};
ghost use Rattle.hh_stream.specs.declared.fault.StreamFault.TheVariants.{Memory};

use std::alloc::AllocError;
use thiserror::Error;

/// Why there is no such key, item or cutting: the first of these that holds. A call's contract says
/// which of them it answers.
#[derive(Clone, Copy, Debug, PartialEq, Eq, Error)]
pub enum StreamFault {
    /// A key's bytes are none.
    #[error("a key has at least 1 byte")]
    Empty,
    /// A key's bytes are more than [`MAX_KEY_LEN`](crate::MAX_KEY_LEN).
    #[error("a key has at most 4096 bytes")]
    TooLong,
    /// An item's weight is 0.
    #[error("a weight is at least 1")]
    ZeroWeight,
    /// The total with an item would be above [`MAX_TOTAL`](crate::MAX_TOTAL).
    #[error("the total would be above 2^63 - 1")]
    TotalTooLarge,
    /// A cutting has no piece.
    #[error("a cutting has at least 1 piece")]
    NoPieces,
    /// A cutting has more than [`MAX_PIECES`](crate::MAX_PIECES) pieces.
    #[error("a cutting has at most 1024 pieces")]
    TooManyPieces,
    /// The lengths of a cutting don't add up to the number of items.
    #[error("the lengths do not add up to the number of items")]
    WrongSum,
    /// The allocator had no memory.
    #[error("out of memory")]
    Memory,
}

impl From<AllocError> for StreamFault {
    ghost from_gives = { λ _ fault. fault ≡ Memory };

    fn from(_: AllocError) -> StreamFault {
        StreamFault::Memory
    }
}
