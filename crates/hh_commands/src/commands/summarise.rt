//! Records summarised into a saved file.

ghost use Rattle.std.specs.Prelude.{◌≡◌, true, IsErr, IfOk, IfErr, IfSome, Ok, Err};
ghost use Rattle.hh_stream.specs.Ranges.{in_range};
ghost use Rattle.hh_summaries.specs.Counters.{max_k, sketch_of};
ghost use Rattle.hh_saved.specs.declared.saved.Saved.TheVariants.{Counters};
ghost use Rattle.hh_commands.specs.Records.{SavesStream};
ghost use Rattle.hh_records.specs.Refusals.{RecordsRefused, RefusedAfter};
ghost use Rattle.hh_commands.specs.Summarise.{IsSummaryOf, bad_k, word_of};

use crate::files::written;
use hh_counters::laws::summaries_follow_items;
use hh_counters::{BucketSaving, MAX_K, Monitor, Summary};
use hh_faults::ToolError;
use hh_records::ReadRecords;
use hh_saved::Saved;
use hh_stream::in_range;
use std::alloc::Global;

/// How a stream is summarised. Both ways give the same summary.
#[derive(Clone, Copy, Debug, PartialEq, Eq)]
pub enum Method {
    /// As Misra and Gries do (1982).
    MisraGries,
    /// By Space-Saving (Metwally, Agrawal and El Abbadi 2005), translated at the end.
    SpaceSaving,
}

impl Method {
    /// The method of the word `mg` or `ss`.
    pub fn of(word: &[u8]) -> Result<Method, ToolError>
        ensures method { IfOk result (λ method. word.now ≡ word_of method) }
        ensures bad_method { IsErr result → result ≡ Err ToolError.BadMethod }
        ensures only { (method : Method) → word.now ≡ word_of method → result ≡ Ok method }
    {
        match word {
            b"mg" => Ok(Method::MisraGries),
            b"ss" => Ok(Method::SpaceSaving),
            _ => Err(ToolError::BadMethod),
        }
    }
}

/// The summary of some records, whose items are monitored and translated at the end.
pub fn summary_by_monitoring<R: ReadRecords>(
    alloc: Global,
    k: u64,
    records: R,
) -> Result<Summary, ToolError>
    requires { in_range k max_k ≡ true }
    ensures summary { IfOk result (IsSummaryOf k (R.known records)) }
    ensures refused { IfErr result (λ fault. RecordsRefused (R.known records) fault) }
{
    summaries_follow_items();
    let start = BucketSaving::with_hasher(alloc, k, records.hash())?;
    let monitor = records.read_into(alloc, start)?;
    match monitor.into_summary() {
        Ok(summary) => Ok(summary),
        Err(_) => Err(ToolError::Memory),
    }
}

/// The saved summary of some records: Misra-Gries with k counters.
///
/// k is tested before anything is read. It is made by a monitor that is translated at the end, which
/// gives the bytes of both methods.
pub fn summary_bytes_from<R: ReadRecords>(
    alloc: Global,
    k: u64,
    records: R,
) -> Result<Vec<u8>, ToolError>
    ensures saved { IfOk result (λ bytes. SavesStream (λ xs. Counters (sketch_of k xs))
        (R.known records) bytes.items) }
    ensures refused { IfErr result (λ fault.
        RefusedAfter (bad_k k) (R.known records) fault) }
    ensures bad_k { IfSome (bad_k k) (λ fault. result ≡ Err fault) }
{
    if !in_range(k, MAX_K) {
        return Err(ToolError::BadK);
    }
    let summary = summary_by_monitoring(alloc, k, records)?;
    written(alloc, Saved::Counters(summary))
}
