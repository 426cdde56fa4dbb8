//! Summaries that begin empty, and saved files that grow by items.

ghost use Rattle.std.specs.Prelude.{◌≡◌, IfErr, IfOk, OnOk, Ok, Err};
ghost use Rattle.hh_library.specs.Add.{GoesOn, IsAdded, TableGoesOn, entries};
ghost use Rattle.hh_library.specs.Add.{added, added_to, empty_of};
ghost use Rattle.hh_commands.specs.Files.{Refuses, StopsAtHead};

use crate::accumulator::Accumulator;
use hh_commands::file_of;
use hh_counters::laws::summaries_follow_items;
use hh_counters::{MAX_K, Summary};
use hh_countmin::laws::tables_follow_items;
use hh_faults::ToolError;
use hh_saved::Saved;
use hh_stream::{KeyHash, in_range};
use std::alloc::Global;

/// The summary of no items, with k counters.
pub fn empty_summary(alloc: Global, k: u64) -> Result<Saved, ToolError>
    ensures value { IfOk result (λ saved. empty_of k ≡ Ok saved) }
    ensures refused { IfErr result (λ fault. empty_of k ≡ Err fault) }
{
    if !in_range(k, MAX_K) {
        return Err(ToolError::BadK);
    }
    summaries_follow_items();
    Ok(Saved::Counters(Summary::empty(alloc, k)))
}

/// Adds items in order, numbered from 1.
pub(crate) fn add_all(
    alloc: Global,
    value: &mut Accumulator,
    items: &[(&[u8], u64)],
) -> Result<(), ToolError>
    ensures added { OnOk result (added_to value.old (entries items.now) ≡ Ok value.new) }
    ensures refused { IfErr result (Refuses (added_to value.old (entries items.now))) }
{
    for i in 0..items.len() {
        let (key, weight) = items[i];
        value.add(alloc, i as u64 + 1, key, weight)?;
    }
    Ok(())
}

/// The saved summary or table of a saved file with items added, in order, each a key and its
/// weight: to each the step of Misra and Gries is made, or a weight is added to one cell of each
/// row. So where the file has the summary or table of a stream, as it was read or as others were
/// added before, the result has that of the stream followed by the items.
///
/// The file is tested first ([`ToolError::BadFile`], as file 1), and then the items in order,
/// numbered from 1 ([`ToolError::BadRecord`]): a key has 1 to 4,096 bytes, a weight is at least 1,
/// and the total at most 2^63 - 1.
pub fn add_items(alloc: Global, file: &[u8], items: &[(&[u8], u64)]) -> Result<Vec<u8>, ToolError>
    ensures saved { IfOk result (λ bytes. IsAdded file.now (entries items.now) bytes.items) }
    ensures stream { IfOk result (λ bytes. GoesOn file.now (entries items.now) bytes.items) }
    ensures table { IfOk result (λ bytes. TableGoesOn file.now (entries items.now) bytes.items) }
    ensures refused { IfErr result (Refuses (added file.now (entries items.now))) }
    ensures early { StopsAtHead 1 file.now result }
{
    summaries_follow_items();
    tables_follow_items();
    let mut value = Accumulator::of(file_of(alloc, 1, file)?, KeyHash::fixed());
    add_all(alloc, &mut value, items)?;
    value.save(alloc)
}
