//! Candidates, counted in records.

ghost use Rattle.std.specs.Prelude.{IfOk, IfErr};
ghost use Rattle.hh_commands.specs.Records.{CountsRecords};
ghost use Rattle.hh_records.specs.Refusals.{RecordsRefused};

use hh_counters::{Candidates, Counts};
use hh_faults::ToolError;
use hh_records::{ReadRecords, gather_in_turn};
use std::alloc::Global;

/// The counts of candidates in some records, in one pass that keeps no record. An error is the one
/// that reading the records met, or [`ToolError::Memory`].
pub fn count_records<'c, R: ReadRecords>(
    alloc: Global,
    candidates: &'c Candidates,
    records: R,
) -> Result<Counts<'c>, ToolError>
    ensures counts { IfOk result (CountsRecords (R.known records) candidates.now) }
    ensures refused { IfErr result (λ fault. RecordsRefused (R.known records) fault) }
{
    gather_in_turn(alloc, Counts::new(alloc, candidates)?, records)
}
