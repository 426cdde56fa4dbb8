//! A summary confirmed: its keys that are heavy, found by a second pass over the stream.

ghost use Rattle.std.specs.Prelude.{◌≡◌, ◌≢◌, ◌↔◌, Ok, List, IfOk, IfErr, IsErrOf, OnOk};
ghost use Rattle.std.specs.Map.{keys_of};
ghost use Rattle.hh_stream.specs.Weights.{Entry, total_of};
ghost use Rattle.hh_summaries.specs.Report.{IsShare};
ghost use Rattle.hh_counters.specs.Counting.{count_of};
ghost use Rattle.hh_rows.specs.Rows.{rows_of};
ghost use Rattle.hh_records.specs.Streams.{ReadsAs};
ghost use Rattle.hh_commands.specs.Confirm.{CountRefused, confirmed_above, confirmed_rows};
ghost use Rattle.hh_library.specs.Confirm.{TotalRefused};

use hh_commands::{count_records, rows_above};
use hh_counters::laws::counts_follow_items;
use hh_counters::{Candidates, Counts, Heavy, Summary};
use hh_faults::ToolError;
use hh_records::ReadRecords;
use hh_rows::report_text;
use hh_stream::Stream;
use std::alloc::Global;

/// The keys of a summary that are heavy in a stream, with their true weights: those above the
/// total divided by the summary's k + 1, by falling weight and then by rising key.
///
/// Where the summary is that of the stream, or a merge of its pieces' summaries, these are all
/// heavy keys of the stream. The error is the first of `TotalDiffers` and `Memory` that holds.
pub fn confirm(alloc: Global, summary: &Summary, stream: &Stream) -> Result<Vec<Heavy>, ToolError>
    ensures rows { IfOk result (λ rows. rows.items ≡ confirmed_rows summary.now stream.now) }
    ensures total_differs { IsErrOf result ToolError.TotalDiffers
        ↔ (summary.now.total ≢ total_of stream.now) }
    ensures refused { IfErr result (TotalRefused summary.now.total (total_of stream.now)) }
{
    counts_follow_items();
    if summary.total() != stream.total() {
        return Err(ToolError::TotalDiffers);
    }
    let candidates = Candidates::of(alloc, summary)?;
    let mut counts = Counts::new(alloc, &candidates)?;
    counts.add_stream(stream);
    Ok(rows_above(summary, &counts, 1, summary.k() + 1)?)
}

/// The report text of a summary's keys above a share of the total of the items that were counted,
/// where that is its own.
pub(crate) fn counted_text(
    alloc: Global,
    summary: &Summary,
    share: (u64, u64),
    counts: &Counts,
) -> Result<Vec<u8>, ToolError>
    requires { IsShare share.0 share.1 }
    ensures total { OnOk result (summary.now.total ≡ counts.now.total) }
    ensures rows { IfOk result (λ text. (xs : List Entry)
        → counts.now ≡ count_of (keys_of summary.now.counters) xs
        → text.items ≡ rows_of (confirmed_above share.0 share.1 summary.now xs)) }
    ensures refused { IfErr result (TotalRefused summary.now.total counts.now.total) }
{
    if summary.total() != counts.total() {
        return Err(ToolError::TotalDiffers);
    }
    let rows = rows_above(summary, counts, share.0, share.1)?;
    Ok(report_text(alloc, &rows)?)
}

/// The report text of a summary's keys above a share of the total of some records, in one pass that
/// keeps no record.
pub(crate) fn confirm_records<R: ReadRecords>(
    alloc: Global,
    summary: &Summary,
    share: (u64, u64),
    records: R,
) -> Result<Vec<u8>, ToolError>
    requires { IsShare share.0 share.1 }
    ensures rows { IfOk result (λ text. (xs : List Entry)
        × ReadsAs (R.known records) (Ok xs) × (summary.now.total ≡ total_of xs)
        × (text.items ≡ rows_of (confirmed_above share.0 share.1 summary.now xs))) }
    ensures refused { IfErr result (λ fault.
        CountRefused summary.now (R.known records) fault) }
{
    let candidates = Candidates::with_hasher(alloc, summary, records.hash())?;
    let counts = count_records(alloc, &candidates, records)?;
    counted_text(alloc, summary, share, &counts)
}
