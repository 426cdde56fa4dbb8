//! Records that are to be read, wherever they come from.

ghost use Rattle.std.specs.Prelude.{◌≡◌, [], IfOk, IfErr};
ghost use Rattle.hh_stream.specs.declared.key_hash.KeyHash.{KeyHash};
ghost use Rattle.hh_records.specs.Layouts.{TextsRefused};
ghost use Rattle.hh_records.specs.Refusals.{RecordsRefused};
ghost use Rattle.hh_records.specs.Streams.{Known};
ghost use Rattle.hh_records.specs.Taking.{GathersRecords, TakesItems};

use hh_faults::{TextError, ToolError};
use hh_stream::{KeyHash, Sketch, TakeItems};
use std::alloc::Global;

/// Records that are to be read.
pub trait ReadRecords: Drop {
    // what is known of them
    ghost known: { Self → Known };

    // how their keys are hashed
    ghost hasher: { Self → KeyHash };

    /// How their keys are hashed where they are looked up. No answer depends on it.
    fn hash(&self) -> KeyHash
        ensures { result ≡ hasher self.now };

    /// Hands the item of each record to a taker of none, in order, and returns the taker.
    fn read_into<T: TakeItems>(self, alloc: Global, taker: T) -> Result<T, TextError>
        requires none { T.weight_taken taker ≡ 0 }
        ensures items { IfOk result (λ taken. TakesItems T.with_item (known self) taker taken) }
        ensures refused { IfErr result (λ error. TextsRefused (known self) error) };
}

/// Gathers the items of `records` into `start`, a sketch of none, one by one, and keeps no record.
/// An error is the one that reading the records met, or [`ToolError::Memory`].
pub fn gather_in_turn<R: ReadRecords, T: Sketch>(
    alloc: Global,
    start: T,
    records: R,
) -> Result<T, ToolError>
    requires none { T.is_of start [] start }
    ensures made { IfOk result (GathersRecords (T.is_of start) (R.known records)) }
    ensures refused { IfErr result (RecordsRefused (R.known records)) }
{
    start.follow_items();
    Ok(records.read_into(alloc, start)?)
}
