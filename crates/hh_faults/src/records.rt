//! Why records are not read.

ghost use Rattle.std.specs.Prelude.{◌≡◌};
ghost use Rattle.hh_faults.specs.declared.records.TextError.TheVariants.{Memory};

use std::alloc::AllocError;
use thiserror::Error;

/// Why a record is refused, in the order of the tests.
#[derive(Clone, Copy, Debug, PartialEq, Eq, Error)]
pub enum BadRecordCause {
    /// There are not one or two fields.
    #[error("wrong number of fields")]
    FieldCount,
    /// The first field is empty.
    #[error("empty key")]
    EmptyKey,
    /// The first field has more than 4,096 bytes.
    #[error("key too long")]
    KeyTooLong,
    /// The second field is not 1 to 20 ASCII digits or, where a layout has decimals, no such number
    /// with a point.
    #[error("bad weight")]
    BadWeight,
    /// The weight is 0.
    #[error("zero weight")]
    ZeroWeight,
    /// The total with this weight is above 2^63 - 1.
    #[error("total too large")]
    TotalTooLarge,
}

/// Why the records of a text were not read.
#[derive(Clone, Copy, Debug, PartialEq, Eq, Error)]
pub enum TextError {
    /// The reader failed.
    #[error("input could not be read")]
    ReadFault,
    /// The layout names a column that the header hasn't.
    #[error("no such column")]
    NoColumn,
    /// The record with this number, from 1 on, failed a test.
    #[error("record {number}: {cause}")]
    BadRecord { number: u64, cause: BadRecordCause },
    /// The allocator had no memory.
    #[error("out of memory")]
    Memory,
}

impl From<AllocError> for TextError {
    ghost from_gives = { λ _ error. error ≡ Memory };

    fn from(_: AllocError) -> TextError {
        TextError::Memory
    }
}
