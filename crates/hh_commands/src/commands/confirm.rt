//! A summary confirmed: its keys that are heavy, found by a second pass over the stream.

ghost use Rattle.std.specs.Prelude.{◌≡◌, List, IfOk, IfErr, OnOk};
ghost use Rattle.std.specs.Map.{keys_of};
ghost use Rattle.hh_stream.specs.Weights.{Entry};
ghost use Rattle.hh_counters.specs.Counting.{count_of};
ghost use Rattle.hh_summaries.specs.Report.{IsShare};
ghost use Rattle.hh_rows.specs.Printed.{printed_rows};
ghost use Rattle.hh_commands.specs.Files.{StopsAtHead};
ghost use Rattle.hh_commands.specs.Bounds.{ComparesBounds, TellsOutside};
ghost use Rattle.hh_commands.specs.Confirm.{ConfirmRowsRefused, ConfirmsPrinted, TellsCompared};
ghost use Rattle.hh_commands.specs.Confirm.{TextRefused, confirmed_above};

use crate::compared::{Bounds, Comparison, key_outside};
use crate::counting::count_records;
use crate::files::summary_in;
use hh_counters::laws::candidates_suffice;
use hh_counters::{Candidates, Counts, Heavy, Summary};
use hh_faults::{ToolError, Totals};
use hh_records::ReadRecords;
use hh_rows::{RowOptions, Share, printed_text, threshold_of};
use std::alloc::{AllocError, Global};

/// The keys of a summary above p/q of the total of the items that were counted.
pub fn rows_above(
    summary: &Summary,
    counts: &Counts,
    p: u64,
    q: u64,
) -> Result<Vec<Heavy>, AllocError>
    requires { IsShare p q }
    ensures { IfOk result (λ rows. (xs : List Entry)
        → counts.now ≡ count_of (keys_of summary.now.counters) xs
        → rows.items ≡ confirmed_above p q summary.now xs) }
{
    candidates_suffice();
    // The counters of a summary are by rising key.
    let _rising = summary.len();
    let rows = counts.select(p, q)?;
    Ok(rows)
}

/// The rows of a summary's keys above p/q of the total of the items that were counted, where that
/// is its own. Then each key's weight is compared with its bounds. `compared` says whether a key
/// outside them refuses the rows; both totals, where they differ, and such a key are left there.
pub fn confirmed_text(
    alloc: Global,
    summary: &Summary,
    share: (u64, u64),
    rows: &RowOptions,
    counts: &Counts,
    compared: &mut Comparison,
) -> Result<Vec<u8>, ToolError>
    requires share { IsShare share.0 share.1 }
    requires keys { counts.now.keys ≡ keys_of summary.now.counters }
    ensures total { OnOk result (summary.now.total ≡ counts.now.total) }
    ensures rows { IfOk result (λ text. (xs : List Entry)
        → counts.now ≡ count_of (keys_of summary.now.counters) xs
        → text.items ≡ printed_rows summary.now.total rows.now
        (confirmed_above share.0 share.1 summary.now xs)) }
    ensures bounds { IfOk result (λ _. (xs : List Entry)
        → counts.now ≡ count_of (keys_of summary.now.counters) xs
        → TellsOutside compared.old.refuses Bounds.Both summary.now xs compared.new.outside) }
    ensures refused { IfErr result (λ fault. (xs : List Entry)
        → counts.now ≡ count_of (keys_of summary.now.counters) xs
        → TextRefused compared.old.refuses summary.now xs compared.new fault) }
{
    if summary.total() != counts.total() {
        compared.totals = Some(Totals {
            summary: summary.total(),
            records: counts.total(),
        });
        return Err(ToolError::TotalDiffers);
    }
    compared.outside = key_outside(summary, counts, Bounds::Both)?;
    if compared.refuses && compared.outside.is_some() {
        return Err(ToolError::WeightOutside);
    }
    let keys = rows_above(summary, counts, share.0, share.1)?;
    Ok(printed_text(alloc, summary.total(), rows, &keys)?)
}

/// The saved summary's keys that are heavy in some records, in one pass that keeps no record, with
/// rows as `rows` wants them: those above a share of the total, which is at least 1/(k + 1) for the
/// summary's k. Another one is refused ([`ToolError::BadThreshold`]) before any record is read.
/// Shares are of the total of all records. Where the totals differ ([`ToolError::TotalDiffers`]),
/// both are left in `compared`.
///
/// Then the weight of each of the summary's keys is compared with both of its bounds, which are
/// those that [`ask_rows`](crate::ask_rows) tells. A key outside them is left in `compared`, and is
/// a fault ([`ToolError::WeightOutside`]) where `compared` says that it refuses.
///
/// Where the summary is that of the records, or a merge of their parts' summaries, the rows are all
/// their heavy keys, and no key is outside its bounds.
pub fn confirm_rows<R: ReadRecords>(
    alloc: Global,
    file: &[u8],
    share: &Share,
    rows: &RowOptions,
    records: R,
    compared: &mut Comparison,
) -> Result<Vec<u8>, ToolError>
    ensures rows { IfOk result (λ text.
        ConfirmsPrinted rows.now share.now file.now (R.known records) text.items) }
    ensures bounds { OnOk result (ComparesBounds compared.old.refuses Bounds.Both file.now
        (R.known records) compared.new.outside) }
    ensures refused { IfErr result (λ fault. ConfirmRowsRefused compared.old.refuses share.now
        file.now (R.known records) fault) }
    ensures explained { IfErr result (λ fault.
        TellsCompared file.now (R.known records) compared.new fault) }
    ensures early { StopsAtHead 1 file.now result }
{
    let summary = summary_in(alloc, file)?;
    let Some(share) = threshold_of(summary.k(), share) else {
        return Err(ToolError::BadThreshold);
    };
    let candidates = Candidates::with_hasher(alloc, &summary, records.hash())?;
    let counts = count_records(alloc, &candidates, records)?;
    confirmed_text(alloc, &summary, share, rows, &counts, compared)
}
