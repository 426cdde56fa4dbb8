//! The greatest keys of a text's records.

ghost use Rattle.std.specs.Prelude.{◌≡◌, List, Ok, IfErr, IfOk};
ghost use Rattle.hh_stream.specs.Weights.{Entry, total_of};
ghost use Rattle.hh_top.specs.Rooms.{counted_in};
ghost use Rattle.hh_top.specs.Top.{top};
ghost use Rattle.hh_records.specs.Refusals.{RecordsRefused};
ghost use Rattle.hh_records.specs.Streams.{ReadsAs};
ghost use Rattle.hh_library.specs.LaidOut.{GivesTop, TalliesText, TopIsRefused, text_laid};

use crate::commands::laid_out::TextRecords;
use hh_commands::count_records;
use hh_counters::Heavy;
use hh_faults::ToolError;
use hh_records::{Layout, ReadRecords, gather_in_turn};
use hh_rows::{Output, RowOptions, printed_text};
use hh_stream::TakeItems;
use hh_tally::Tally;
use hh_tally::laws::tallies_bound_weights;
use hh_top::{Shortlist, counted_in, whole_room};
use std::alloc::Global;

/// The shortlist of the `n` greatest keys of `records`, by a tally with `memory` bytes.
fn shortlist_of(
    alloc: Global,
    n: u64,
    memory: u64,
    records: TextRecords<'_>,
) -> Result<Shortlist, ToolError>
    ensures n { IfOk result (λ list. list.n ≡ n) }
    ensures k { IfOk result (λ list. list.k ≡ counted_in memory) }
    ensures tally { IfOk result (λ list.
        TalliesText (text_laid records.entry.layout.now records.entry.text.now) list.tally) }
    ensures refused { IfErr result
        (RecordsRefused (text_laid records.entry.layout.now records.entry.text.now)) }
{
    tallies_bound_weights();
    let start = Tally::new(alloc, whole_room(memory), records.hash())?;
    let tally = gather_in_turn(alloc, start, records)?;
    Ok(Shortlist::of(alloc, tally, n, counted_in(memory))?)
}

/// The greatest keys of `records`, whose tally this shortlist is of: by its counters where it lost
/// nothing, and else by counting those that can be among them, but of which the tally isn't sure.
fn greatest_of(
    alloc: Global,
    list: &Shortlist,
    records: TextRecords<'_>,
) -> Result<Vec<Heavy>, ToolError>
    requires tally { TalliesText (text_laid records.layout.now records.text.now) list.now.tally }
    ensures keys { IfOk result (λ keys. (xs : List Entry)
        × ReadsAs (text_laid records.entry.layout.now records.entry.text.now) (Ok xs)
        × (list.now.tally.total ≡ total_of xs) × (keys.items ≡ top list.now.n xs)) }
    ensures refused { IfErr result (TopIsRefused list.now.n list.now.k
        (text_laid records.entry.layout.now records.entry.text.now)) }
{
    if list.tally().is_exact() {
        return Ok(list.greatest_counters(alloc)?);
    }
    let choice = list.choice(alloc, records.hash())?;
    let counts = count_records(alloc, &choice, records)?;
    list.greatest(alloc, &counts.into_weights())
}

/// The rows of the `n` greatest keys of a text's records, all keys where they are fewer, by falling
/// weight and then by rising key, with as many digits of a weight after its point as the layout
/// has. Counters take `memory` bytes, a few more or less, and 256,000 at least. The text is read
/// once where the counters tell the greatest keys, and else once more, to count those that can be
/// among them.
///
/// Where fewer keys than are wanted weigh more than a key that wasn't counted can, the error is
/// [`ToolError::TopUncertain`], after the records': with how many do, and with what such a key can
/// weigh.
pub fn top_bytes(
    alloc: Global,
    n: u64,
    memory: u64,
    layout: &Layout,
    text: &[u8],
) -> Result<Vec<u8>, ToolError>
    ensures rows { IfOk result (λ rows.
        GivesTop n layout.now.decimals (text_laid layout.now text.now) rows.items) }
    ensures refused { IfErr result
        (TopIsRefused n (counted_in memory) (text_laid layout.now text.now)) }
{
    let records = TextRecords { layout, text };
    let list = shortlist_of(alloc, n, memory, records)?;
    let keys = greatest_of(alloc, &list, records)?;
    let rows = RowOptions::all(Output::plain(layout.decimals));
    Ok(printed_text(alloc, list.tally().total(), &rows, &keys)?)
}
