//! What families and tables are refused for.

ghost use Rattle.std.specs.Prelude.{◌≡◌};
ghost use Rattle.hh_countmin.specs.declared.fault.TableFault.TheVariants.{Memory};

use std::alloc::AllocError;
use thiserror::Error;

/// Why there is no such family or table, or an item or a table was not taken in: the first of these
/// that holds. A call's contract says which of them it answers.
#[derive(Clone, Copy, Debug, PartialEq, Eq, Error)]
pub enum TableFault {
    /// The depth is not 1 to 16.
    #[error("depth must be 1 to 16")]
    BadDepth,
    /// A multiplier is 0, or a coefficient is not below [`MODULUS`](crate::MODULUS).
    #[error("a coefficient is out of range")]
    BadCoefficient,
    /// The width is not 1 to 65,536.
    #[error("width must be 1 to 65536")]
    BadWidth,
    /// The hash families of two tables differ.
    #[error("the tables have different hash families")]
    DifferentFamily,
    /// The widths of two tables differ.
    #[error("the tables have different widths")]
    DifferentWidth,
    /// The total would be above 2^63 - 1.
    #[error("the total would be above 2^63 - 1")]
    TotalTooLarge,
    /// The allocator had no memory.
    #[error("out of memory")]
    Memory,
}

impl From<AllocError> for TableFault {
    ghost from_gives = { λ _ fault. fault ≡ Memory };

    fn from(_: AllocError) -> TableFault {
        TableFault::Memory
    }
}
