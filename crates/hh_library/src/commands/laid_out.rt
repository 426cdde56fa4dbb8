//! Calls over the records of a text whose keys and weights stand in columns of one's own.

ghost use Rattle.std.specs.Prelude.{◌≡◌, ◌*◌, ◌+◌, ◌≤◌, true, List, Ok, IfErr, IfOk, IfSome, Err};
ghost use Rattle.std.specs.Prelude.{OnErr, OnOk};
ghost use Rattle.hh_library.specs.Add.{entries};
ghost use Rattle.hh_stream.specs.Ranges.{in_range};
ghost use Rattle.hh_stream.specs.Weights.{Entry, total_of};
ghost use Rattle.hh_summaries.specs.Counters.{max_k};
ghost use Rattle.hh_summaries.specs.Report.{IsShare, heavy};
ghost use Rattle.hh_records.specs.Refusals.{RecordsRefused, RefusedAfter};
ghost use Rattle.hh_records.specs.Streams.{ReadsAs};
ghost use Rattle.hh_commands.specs.Files.{StopsAtHead};
ghost use Rattle.hh_library.specs.LaidOut.{AddRecordsRefused, AddsRecords, CondenseBoundedRefused};
ghost use Rattle.hh_library.specs.LaidOut.{CondensesBounded, ConfirmBoundedRefused};
ghost use Rattle.hh_library.specs.LaidOut.{ConfirmsBounded, ReportsRows, bad_report};
ghost use Rattle.hh_library.specs.LaidOut.{text_laid};

use crate::accumulator::Accumulator;
use crate::commands::count_items::share_or_least;
use hh_commands::{
    Comparison, condense_bytes_from, confirmed_text, count_records, rows_above,
    summary_by_monitoring, summary_in,
};
use hh_counters::laws::{candidates_suffice, misra_gries_is_honest};
use hh_counters::{Candidates, Heavy, MAX_K};
use hh_faults::{TextError, ToolError};
use hh_pieces::read_texts;
use hh_records::{Layout, ReadRecords};
use hh_rows::{Output, RowOptions, printed_text};
use hh_stream::{KeyHash, Stream, TakeItems, in_range};
use std::alloc::{AllocError, Global};

/// The records of a text in memory, which can be read again.
#[derive(Clone, Copy)]
pub struct TextRecords<'t> {
    pub layout: &'t Layout,
    pub text: &'t [u8],
}

impl<'t> ReadRecords for TextRecords<'t> {
    ghost known = { λ records. text_laid records.layout.now records.text.now };

    ghost hasher = { λ records. records.layout.now.hash };

    fn hash(&self) -> KeyHash {
        self.layout.hash
    }

    fn read_into<T: TakeItems>(self, alloc: Global, taker: T) -> Result<T, TextError> {
        read_texts(alloc, self.layout, self.text, Vec::new(alloc), taker)
    }
}

/// The stream that records are.
fn stream_of<R: ReadRecords>(alloc: Global, records: R) -> Result<Stream, ToolError>
    ensures stream { IfOk result (λ stream. ReadsAs (R.known records) (Ok stream)) }
    ensures refused { IfErr result (RecordsRefused (R.known records)) }
{
    Ok(records.read_into(alloc, Stream::new(alloc))?)
}

/// The items of a stream, as they are added.
fn items_in<'a>(alloc: Global, stream: &'a Stream) -> Result<Vec<(&'a [u8], u64)>, AllocError>
    ensures { IfOk result (λ items. entries items.items ≡ stream.now) }
{
    let mut items: Vec<(&[u8], u64)> = Vec::new(alloc);
    for item in stream.items() {
        items.push((item.key().bytes(), item.weight()))?;
    }
    Ok(items)
}

/// Adds the items of some records to a value, all of them, or after a refusal none. The records are
/// tested first, and then their items, of which the first that makes the total too large is
/// refused.
pub fn add_records<R: ReadRecords>(
    alloc: Global,
    value: &mut Accumulator,
    records: R,
) -> Result<(), ToolError>
    ensures added { OnOk result (AddsRecords value.old (R.known records) value.new) }
    ensures refused { IfErr result (AddRecordsRefused value.old (R.known records)) }
    ensures unchanged { OnErr result (value.new ≡ value.old) }
{
    let stream = stream_of(alloc, records)?;
    let items = items_in(alloc, &stream)?;
    value.add_items(alloc, &items)
}

/// The rows of a saved summary's keys above a share of the total of some records, which are those
/// that were summarised, with `decimals` digits of a weight after its point. Without a share it
/// is 1/(k + 1), the least for the summary's k.
///
/// The file is tested first ([`ToolError::BadFile`], as file 1), then its kind
/// ([`ToolError::NotCounters`]), then the share ([`ToolError::BadThreshold`]), then the records,
/// then their total ([`ToolError::TotalDiffers`]), and then that no key of the summary is outside
/// its bounds ([`ToolError::WeightOutside`]).
pub fn confirm_bounded<R: ReadRecords>(
    alloc: Global,
    file: &[u8],
    share: Option<(u64, u64)>,
    decimals: u8,
    records: R,
) -> Result<Vec<u8>, ToolError>
    ensures rows { IfOk result (λ rows.
        ConfirmsBounded share decimals file.now (R.known records) rows.items) }
    ensures refused { IfErr result (ConfirmBoundedRefused share file.now (R.known records)) }
    ensures early { StopsAtHead 1 file.now result }
{
    let summary = summary_in(alloc, file)?;
    let Some(share) = share_or_least(share, summary.k()) else {
        return Err(ToolError::BadThreshold);
    };
    let candidates = Candidates::with_hasher(alloc, &summary, records.hash())?;
    let counts = count_records(alloc, &candidates, records)?;
    let rows = RowOptions::all(Output::plain(decimals));
    let mut compared = Comparison::new(true);
    confirmed_text(alloc, &summary, share, &rows, &counts, &mut compared)
}

/// The condensed rows of some records by a saved summary, as
/// [`condense_bytes_from`](hh_commands::condense_bytes_from) gives them, with `decimals` digits of
/// a weight after its point.
///
/// The file is tested first ([`ToolError::BadFile`], as file 1), then its kind
/// ([`ToolError::NotCounters`]), then the records, of any total, and then that no key of the
/// summary is above its bound ([`ToolError::WeightOutside`]).
pub fn condense_bounded<R: ReadRecords>(
    alloc: Global,
    file: &[u8],
    decimals: u8,
    records: R,
) -> Result<Vec<u8>, ToolError>
    ensures rows { IfOk result (λ rows.
        CondensesBounded decimals file.now (R.known records) rows.items) }
    ensures refused { IfErr result (CondenseBoundedRefused file.now (R.known records)) }
    ensures early { StopsAtHead 1 file.now result }
{
    let output = Output::plain(decimals);
    let mut compared = Comparison::new(true);
    condense_bytes_from(alloc, file, records, &output, &mut compared)
}

/// The total of a text's records, and their keys above p/q of it, of which k counters miss none.
fn heavy_keys(
    alloc: Global,
    k: u64,
    share: (u64, u64),
    layout: &Layout,
    text: &[u8],
) -> Result<(u64, Vec<Heavy>), ToolError>
    requires k { in_range k max_k ≡ true }
    requires share { IsShare share.0 share.1 }
    requires enough { share.1 ≤ share.0 * (k + 1) }
    ensures keys { IfOk result (λ found. (xs : List Entry)
        × ReadsAs (text_laid layout.now text.now) (Ok xs)
        × (found.0 ≡ total_of xs) × (found.1.items ≡ heavy xs share.0 share.1)) }
    ensures refused { IfErr result (RecordsRefused (text_laid layout.now text.now)) }
{
    let records = TextRecords { layout, text };
    misra_gries_is_honest();
    candidates_suffice();
    let summary = summary_by_monitoring(alloc, k, records)?;
    let candidates = Candidates::with_hasher(alloc, &summary, records.hash())?;
    let counts = count_records(alloc, &candidates, records)?;
    let keys = rows_above(&summary, &counts, share.0, share.1)?;
    Ok((counts.total(), keys))
}

/// The exact report of a text's records: the rows of all keys above a share of the total, by
/// falling weight and then by rising key, with as many digits of a weight after its point as the
/// layout has. Without a share it is 1/(k + 1). The text is read twice, and k counters are kept.
///
/// k is tested first ([`ToolError::BadK`]), then the share ([`ToolError::BadThreshold`]), and then
/// the records.
pub fn report_bytes(
    alloc: Global,
    k: u64,
    share: Option<(u64, u64)>,
    layout: &Layout,
    text: &[u8],
) -> Result<Vec<u8>, ToolError>
    ensures rows { IfOk result (λ rows.
        ReportsRows k share layout.now.decimals (text_laid layout.now text.now) rows.items) }
    ensures refused { IfErr result
        (RefusedAfter (bad_report k share) (text_laid layout.now text.now)) }
    ensures bad_report { IfSome (bad_report k share) (λ fault. result ≡ Err fault) }
{
    if !in_range(k, MAX_K) {
        return Err(ToolError::BadK);
    }
    let Some(share) = share_or_least(share, k) else {
        return Err(ToolError::BadThreshold);
    };
    let (total, keys) = heavy_keys(alloc, k, share, layout, text)?;
    let rows = RowOptions::all(Output::plain(layout.decimals));
    Ok(printed_text(alloc, total, &rows, &keys)?)
}
