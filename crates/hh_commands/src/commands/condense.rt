//! Fewer records that say of a summary's keys what many records say.

ghost use Rattle.std.specs.Prelude.{◌≡◌, ◌<◌, ◌^◌, List, IfOk, IfErr, OnOk};
ghost use Rattle.std.specs.Map.{keys_of};
ghost use Rattle.hh_stream.specs.Weights.{Entry, total_of};
ghost use Rattle.hh_counters.specs.Condensed.{condensed, free_name, other_name};
ghost use Rattle.hh_rows.specs.Rows.{condensed_in};
ghost use Rattle.hh_commands.specs.Bounds.{ComparesBounds, TellsOutside};
ghost use Rattle.hh_commands.specs.Condense.{AboveRefused, CondensePartRefused, CondensesIn, TellsAbove};
ghost use Rattle.hh_commands.specs.Files.{StopsAtHead};
ghost use Rattle.hh_commands.specs.Records.{IsCountOf};

use crate::compared::{Bounds, Comparison, key_outside};
use crate::counting::count_records;
use crate::files::summary_in;
use hh_counters::laws::{condensed_is_counted, free_name_is_first};
use hh_counters::{Candidates, Counts, Heavy, Summary};
use hh_faults::ToolError;
use hh_records::ReadRecords;
use hh_rows::{Output, condensed_text};
use hh_stream::Key;
use itoa::Buffer;
use std::alloc::{AllocError, Global};

/// Name number i for the keys without a counter: `others` and the digits of i, where 0 has none.
fn other_name(alloc: Global, number: u64) -> Result<Key, AllocError>
    ensures { IfOk result (λ key. key ≡ other_name number) }
{
    let mut name = Vec::from_slice(alloc, b"others")?;
    if number > 0 {
        let mut digits = Buffer::new();
        name.extend_from_slice(digits.format(number).as_bytes())?;
    }
    Key::of_bytes(alloc, name.as_slice())
}

/// The first of the names `others`, `others1`, `others2` and so on that has no counter.
fn free_name(alloc: Global, summary: &Summary) -> Result<Key, AllocError>
    ensures { IfOk result (λ key. key ≡ free_name summary.now.counters) }
{
    free_name_is_first();
    for number in 0..summary.k() + 1 {
        let name = other_name(alloc, number)?;
        if summary.get(&name) == 0 {
            return Ok(name);
        }
    }
    unreachable!()
}

/// The sum of the weights of rows.
fn total_of(rows: &[Heavy]) -> u64
    requires { total_of rows.now < 2 ^ 64 }
    ensures { result ≡ total_of rows.now }
{
    let mut total = 0;
    for row in rows {
        total += row.weight;
    }
    total
}

/// The rows of counted items, condensed.
pub fn condensed_rows(
    alloc: Global,
    summary: &Summary,
    counts: &Counts,
) -> Result<Vec<Heavy>, AllocError>
    requires counted { (xs : List Entry) × IsCountOf (keys_of summary.now.counters) xs counts.now }
    ensures { IfOk result (λ rows. (xs : List Entry)
        → IsCountOf (keys_of summary.now.counters) xs counts.now
        → rows.items ≡ condensed summary.now.counters xs) }
{
    condensed_is_counted();
    // The counters of a summary are by rising key.
    let _rising = summary.len();
    let mut rows = counts.rows(alloc)?;
    let others = counts.total() - total_of(&rows);
    if others > 0 {
        let key = free_name(alloc, summary)?;
        rows.push(Heavy {
            key,
            weight: others,
        })?;
    }
    Ok(rows)
}

/// The condensed rows of counted items as text, written as `output` says.
pub fn condensed_counts(
    alloc: Global,
    summary: &Summary,
    counts: &Counts,
    output: &Output,
) -> Result<Vec<u8>, AllocError>
    requires counted { (xs : List Entry) × IsCountOf (keys_of summary.now.counters) xs counts.now }
    ensures { IfOk result (λ text. (xs : List Entry)
        → IsCountOf (keys_of summary.now.counters) xs counts.now
        → text.items ≡ condensed_in output.now (condensed summary.now.counters xs)) }
{
    let rows = condensed_rows(alloc, summary, counts)?;
    condensed_text(alloc, &rows, output)
}

/// The condensed rows of counted items as text, written as `output` says. Each key's weight is
/// compared with its higher bound. `compared` says whether a key above that refuses the rows; such
/// a key is left there.
pub fn condensed_part(
    alloc: Global,
    summary: &Summary,
    counts: &Counts,
    output: &Output,
    compared: &mut Comparison,
) -> Result<Vec<u8>, ToolError>
    requires counted { (xs : List Entry) × IsCountOf (keys_of summary.now.counters) xs counts.now }
    ensures rows { IfOk result (λ text. (xs : List Entry)
        → IsCountOf (keys_of summary.now.counters) xs counts.now
        → text.items ≡ condensed_in output.now (condensed summary.now.counters xs)) }
    ensures bounds { IfOk result (λ _. (xs : List Entry)
        → IsCountOf (keys_of summary.now.counters) xs counts.now
        → TellsOutside compared.old.refuses Bounds.High summary.now xs compared.new.outside) }
    ensures refused { IfErr result (λ fault. (xs : List Entry)
        → IsCountOf (keys_of summary.now.counters) xs counts.now
        → AboveRefused compared.old.refuses summary.now xs compared.new fault) }
{
    compared.outside = key_outside(summary, counts, Bounds::High)?;
    if compared.refuses && compared.outside.is_some() {
        return Err(ToolError::WeightOutside);
    }
    Ok(condensed_counts(alloc, summary, counts, output)?)
}

/// Records that say the same to [`confirm_rows`](crate::confirm_rows) with the same file as these
/// do, at most one more than the summary has keys: each key of the summary that comes, with its
/// weight, by rising key, and then, where other keys come, one record of what they weigh. Its key
/// is the first of `others`, `others1`, `others2` and so on that is no key of the summary.
///
/// So parts of a stream may be condensed one by one by the summary of the whole, and their
/// condensed records joined in any order, as CSV. The rows are as
/// [`report_text`](hh_rows::report_text) writes them, but that the first key is in quotes where it
/// begins with the three bytes of a byte order mark.
///
/// The file is tested first ([`ToolError::BadFile`], as file 1, and [`ToolError::NotCounters`]),
/// and then the records, whose total need not be the summary's. Then the weight of each of the
/// summary's keys is compared with the higher of its bounds, which
/// [`ask_rows`](crate::ask_rows) tells: in a part of the records that were summarised no key is
/// above it. A key that is above is left in `compared`, and is a fault
/// ([`ToolError::WeightOutside`]) where `compared` says that it refuses.
///
/// The condensed records are a key and a weight each, whatever columns these had, written as
/// `output` says. The digits after the point are to be those that these were read with.
pub fn condense_bytes_from<R: ReadRecords>(
    alloc: Global,
    file: &[u8],
    records: R,
    output: &Output,
    compared: &mut Comparison,
) -> Result<Vec<u8>, ToolError>
    ensures rows { IfOk result (λ rows.
        CondensesIn output.now file.now (R.known records) rows.items) }
    ensures bounds { OnOk result (ComparesBounds compared.old.refuses Bounds.High file.now
        (R.known records) compared.new.outside) }
    ensures refused { IfErr result (λ fault.
        CondensePartRefused compared.old.refuses file.now (R.known records) fault) }
    ensures explained { IfErr result (λ fault.
        TellsAbove file.now (R.known records) compared.new fault) }
    ensures early { StopsAtHead 1 file.now result }
{
    let summary = summary_in(alloc, file)?;
    let candidates = Candidates::with_hasher(alloc, &summary, records.hash())?;
    let counts = count_records(alloc, &candidates, records)?;
    condensed_part(alloc, &summary, &counts, output, compared)
}
