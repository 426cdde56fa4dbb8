//! Items in memory: what is wrong with one, and candidates counted in them.

ghost use Rattle.std.specs.Prelude.{◌≡◌, ◌≤◌, ◌<◌, ◌+◌, None, IfOk, IfErr};
ghost use Rattle.hh_stream.specs.Weights.{max_total};
ghost use Rattle.hh_library.specs.Add.{bad_item, item_fault, entries};
ghost use Rattle.hh_commands.specs.Ask.{unless};
ghost use Rattle.hh_commands.specs.Files.{Refuses};
ghost use Rattle.hh_commands.specs.Records.{IsCountOf};

use hh_counters::laws::counts_follow_items;
use hh_counters::{Candidates, Counts};
use hh_faults::{BadRecordCause, ToolError};
use hh_stream::{MAX_KEY_LEN, MAX_TOTAL};
use std::alloc::Global;

/// What is wrong with the item with this number, after items of this total.
pub fn item_fault(number: u64, total: u64, key: &[u8], weight: u64) -> Option<ToolError>
    requires { total ≤ max_total }
    ensures fault { result ≡ item_fault number total (key.now, weight) }
    ensures weighs { result ≡ None → 0 < weight }
    ensures fits { result ≡ None → total + weight ≤ max_total }
{
    let cause = if key.is_empty() {
        BadRecordCause::EmptyKey
    } else if key.len() > MAX_KEY_LEN {
        BadRecordCause::KeyTooLong
    } else if weight == 0 {
        BadRecordCause::ZeroWeight
    } else if weight > MAX_TOTAL - total {
        BadRecordCause::TotalTooLarge
    } else {
        return None;
    };
    Some(ToolError::BadRecord { number, cause })
}

/// The counts of candidates in items, numbered from 1.
pub(crate) fn count_items<'c>(
    alloc: Global,
    candidates: &'c Candidates,
    items: &[(&[u8], u64)],
) -> Result<Counts<'c>, ToolError>
    ensures passes { IfOk result (λ counts. bad_item 1 0 (entries items.now) ≡ None) }
    ensures counts { IfOk result (IsCountOf candidates.now (entries items.now)) }
    ensures refused { IfErr result (Refuses
        (unless (bad_item 1 0 (entries items.now)) candidates.now)) }
{
    counts_follow_items();
    let mut counts = Counts::new(alloc, candidates)?;
    for i in 0..items.len() {
        let (key, weight) = items[i];
        if let Some(fault) = item_fault(i as u64 + 1, counts.total(), key, weight) {
            return Err(fault);
        }
        counts.add_bytes(key, weight);
    }
    Ok(counts)
}
