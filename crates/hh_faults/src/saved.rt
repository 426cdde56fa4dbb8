//! Why bytes are no saved file.

ghost use Rattle.std.specs.Prelude.{◌≡◌};
ghost use Rattle.hh_faults.specs.declared.saved.SavedFault.TheVariants.{Memory};

use std::alloc::{AllocError, AllocFailed};
use thiserror::Error;

/// What is wrong with the bytes of a file: the first fault from left to right.
#[derive(Clone, Copy, Debug, PartialEq, Eq, Error)]
pub enum SavedFault {
    /// Fewer bytes are left than the field has.
    #[error("truncated")]
    Truncated,
    /// The file begins with neither `HHS1` nor `HHS2`, nor, if it is sealed, with `HVY1`.
    #[error("bad magic")]
    BadMagic,
    /// The kind is neither 1 nor 2.
    #[error("bad kind")]
    BadKind,
    /// k is 0.
    #[error("bad k")]
    BadK,
    /// There are more counters than k.
    #[error("bad count")]
    BadCount,
    /// A key has no bytes, or more than a key can have.
    #[error("bad key")]
    BadKey,
    /// A key is not above the one before it.
    #[error("keys out of order")]
    KeyOrder,
    /// A counter is 0.
    #[error("bad counter")]
    BadCounter,
    /// The counters add up to more than the total.
    #[error("counters above total")]
    SumTooLarge,
    /// The width is not 1 to 65,536.
    #[error("bad width")]
    BadWidth,
    /// The depth is not 1 to 16.
    #[error("bad depth")]
    BadDepth,
    /// A coefficient of the hash family is out of range.
    #[error("bad coefficient")]
    BadCoefficient,
    /// The total is above 2^63 - 1.
    #[error("total too large")]
    TotalTooLarge,
    /// A row of cells does not add up to the total.
    #[error("row does not sum to total")]
    RowSum,
    /// Bytes follow the last field.
    #[error("trailing bytes")]
    Trailing,
    /// The digest of a sealed file is not that of the bytes before it.
    #[error("damaged: its checksum is another")]
    Damaged,
    /// A sealed file has more than 9 decimals.
    #[error("bad decimals")]
    BadDecimals,
    /// The allocator had no memory.
    #[error("out of memory")]
    Memory,
}

impl From<AllocError> for SavedFault {
    ghost from_gives = { λ _ e. e ≡ Memory };

    fn from(_e: AllocError) -> SavedFault {
        SavedFault::Memory
    }
}

impl<T: Drop> From<AllocFailed<T>> for SavedFault {
    ghost from_gives = { λ _ e. e ≡ Memory };

    fn from(_e: AllocFailed<T>) -> SavedFault {
        SavedFault::Memory
    }
}
