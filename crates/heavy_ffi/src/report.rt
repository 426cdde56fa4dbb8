//! The exact report of a text's records, their greatest keys, and how a text is cut.

ghost use Rattle.std.specs.Prelude.{◌≡◌, ◌≢◌, length, IfErr, IfOk, IfSome, IsErrAnd, None};
ghost use Rattle.hh_top.specs.Rooms.{counted_in};
ghost use Rattle.hh_records.specs.Refusals.{RefusedAfter};
ghost use Rattle.hh_library.specs.LaidOut.{GivesTop, ReportsRows, TopIsRefused};
ghost use Rattle.hh_library.specs.LaidOut.{bad_report, text_laid};
ghost use Rattle.heavy_ffi.specs.Items.{keys_of};
ghost use Rattle.heavy_ffi.specs.Layouts.{AreWholeRecordsBy, Laid, LaidRefused, layout_fault};
ghost use Rattle.heavy_ffi.specs.Layouts.{share_given};
ghost use Rattle.heavy_ffi.specs.Outcomes.{AnswersAfter, IsOutcome, IsRefused};

use crate::fault::Fault;
use crate::hash_words::HashWords;
use crate::layout::{LaidText, TextLayout, share_given};
use crate::room::{USAGE, answer};
use hh_faults::ToolError;
use hh_library::{report_bytes, top_bytes};
use hh_pieces::whole_records;
use hh_records::Format;
use std::alloc::Global;

/// The exact report of the records of a text, whose keys are hashed by these words.
fn report_of(
    alloc: Global,
    laid: LaidText,
    k: u64,
    share: Option<(u64, u64)>,
    hash: &HashWords,
) -> Result<Vec<u8>, ToolError>
    requires { layout_fault laid.layout.now (length laid.columns.now) laid.ends.now ≡ None }
    ensures rows { IfOk result (λ rows. Laid laid.entry.layout.now
        (keys_of laid.entry.columns.now laid.entry.ends.now)
        (λ l. ReportsRows k share l.decimals (text_laid l laid.entry.text.now) rows.items)) }
    ensures refused { IfErr result (LaidRefused laid.entry.layout.now
        (keys_of laid.entry.columns.now laid.entry.ends.now)
        (λ l. RefusedAfter (bad_report k share) (text_laid l laid.entry.text.now))) }
    ensures early { IfSome (bad_report k share) (λ wrong. IsErrAnd result
        (LaidRefused laid.entry.layout.now (keys_of laid.entry.columns.now laid.entry.ends.now)
        (λ l e. e ≡ wrong))) }
{
    let layout = laid.layout_by(alloc, hash)?;
    report_bytes(alloc, k, share, &layout, laid.text)
}

/// Gives the exact report of a text's records: all keys above p/q of their total or, where both are
/// 0, above 1/(k + 1). Behind the layout k is tested, then p/q, and then the records.
#[unsafe(no_mangle)]
pub extern "C" fn proved_report(
    alloc: Global,
    text: &[u8],
    layout: &TextLayout,
    columns: &[u8],
    ends: &[u64],
    k: u64,
    p: u64,
    q: u64,
    hash: &HashWords,
    out: &mut [u8],
    needed: &mut usize,
    fault: &mut Fault,
) -> u32
    ensures answers { AnswersAfter (layout_fault layout.now (length columns.now) ends.now)
        (λ status. IsOutcome (λ rows. Laid layout.now (keys_of columns.now ends.now)
        (λ l. ReportsRows k (share_given p q) l.decimals (text_laid l text.now) rows))
        (LaidRefused layout.now (keys_of columns.now ends.now)
        (λ l. RefusedAfter (bad_report k (share_given p q)) (text_laid l text.now)))
        status out.old) result out.old out.new needed.new fault.new }
    ensures early { layout_fault layout.now (length columns.now) ends.now ≡ None
        → IfSome (bad_report k (share_given p q)) (λ wrong. IsRefused
        (LaidRefused layout.now (keys_of columns.now ends.now) (λ l e. e ≡ wrong))
        result fault.new) }
    ensures no_bytes { result ≢ 0 → result ≢ 5 → needed.new ≡ 0 }
{
    let laid = LaidText {
        text,
        layout,
        columns,
        ends,
    };
    if let Some(bad) = laid.test() {
        *needed = 0;
        *fault = bad;
        return USAGE;
    }
    let share = share_given(p, q);
    let rows = report_of(alloc, laid, k, share, hash);
    answer(rows, out, needed, fault)
}

/// The rows of the greatest keys of the records of a text, whose keys are hashed by these words.
fn top_of(
    alloc: Global,
    laid: LaidText,
    n: u64,
    memory: u64,
    hash: &HashWords,
) -> Result<Vec<u8>, ToolError>
    requires { layout_fault laid.layout.now (length laid.columns.now) laid.ends.now ≡ None }
    ensures rows { IfOk result (λ rows. Laid laid.entry.layout.now
        (keys_of laid.entry.columns.now laid.entry.ends.now)
        (λ l. GivesTop n l.decimals (text_laid l laid.entry.text.now) rows.items)) }
    ensures refused { IfErr result (LaidRefused laid.entry.layout.now
        (keys_of laid.entry.columns.now laid.entry.ends.now)
        (λ l. TopIsRefused n (counted_in memory) (text_laid l laid.entry.text.now))) }
{
    let layout = laid.layout_by(alloc, hash)?;
    top_bytes(alloc, n, memory, &layout, laid.text)
}

/// Gives the rows of the n greatest keys of a text's records, or of all where they are fewer, by
/// counters that take `memory` bytes. Behind the layout come the records, and then whether n keys
/// are certain.
#[unsafe(no_mangle)]
pub extern "C" fn proved_top(
    alloc: Global,
    text: &[u8],
    layout: &TextLayout,
    columns: &[u8],
    ends: &[u64],
    n: u64,
    memory: u64,
    hash: &HashWords,
    out: &mut [u8],
    needed: &mut usize,
    fault: &mut Fault,
) -> u32
    ensures answers { AnswersAfter (layout_fault layout.now (length columns.now) ends.now)
        (λ status. IsOutcome (λ rows. Laid layout.now (keys_of columns.now ends.now)
        (λ l. GivesTop n l.decimals (text_laid l text.now) rows))
        (LaidRefused layout.now (keys_of columns.now ends.now)
        (λ l. TopIsRefused n (counted_in memory) (text_laid l text.now)))
        status out.old) result out.old out.new needed.new fault.new }
    ensures no_bytes { result ≢ 0 → result ≢ 5 → needed.new ≡ 0 }
{
    let laid = LaidText {
        text,
        layout,
        columns,
        ends,
    };
    if let Some(bad) = laid.test() {
        *needed = 0;
        *fault = bad;
        return USAGE;
    }
    let rows = top_of(alloc, laid, n, memory, hash);
    answer(rows, out, needed, fault)
}

/// Tells how many bytes of a part of a text are whole records, with this byte between two fields:
/// those before the last line feed that is not in quotes, or 0 where there is none after the first
/// byte. The part begins as the text does, or where an earlier part was cut so.
#[unsafe(no_mangle)]
pub extern "C" fn proved_whole_records(text: &[u8], delimiter: u8) -> usize
    ensures { AreWholeRecordsBy delimiter text.now result }
{
    match whole_records(text, Format::Csv, delimiter) {
        Some(whole) => whole,
        None => 0,
    }
}
