//! A caller of each library, as its page CALLING.md shows it.

ghost use Rattle.std.specs.Prelude.{◌≡◌, ◌+◌, ◌<◌, ◌≤◌, ◌↔◌, ◌∷◌, [], List, Ok, Some, IsTrue, IfOk, IfSome, OnOk, codes, map};
ghost use Rattle.hh_faults.specs.Faults.{text_fault};
ghost use Rattle.hh_faults.specs.Status.{status_of};
ghost use Rattle.hh_stream.specs.Weights.{Entry, max_total, total_of, weight_of};
ghost use Rattle.hh_tally.specs.Tallies.{merged_tally};
ghost use Rattle.hh_summaries.specs.Counters.{IsHonest, merge_of, sketch_of};
ghost use Rattle.hh_summaries.specs.Report.{heavy};
ghost use Rattle.hh_countmin.specs.Family.{drawn_family};
ghost use Rattle.hh_countmin.specs.Table.{estimate_in, table_of};
ghost use Rattle.hh_saved.specs.Reading.{saved_of};
ghost use Rattle.hh_saved.specs.declared.saved.Saved.TheVariants.{Cells, Counters};
ghost use Rattle.hh_seals.specs.Laws.{Seals};
ghost use Rattle.csv.specs.Records.{fields_of};
ghost use Rattle.hh_json.specs.Fields.{json_fields};
ghost use Rattle.hh_pieces.specs.Sources.{sources_known};
ghost use Rattle.hh_records.specs.Layouts.{delimited};
ghost use Rattle.hh_records.specs.Streams.{ReadsAs, text_known};
ghost use Rattle.csv.specs.Writing.{comma};
ghost use Rattle.hh_rows.specs.Outputs.{plain_output};
ghost use Rattle.hh_rows.specs.Printed.{all_rows, printed_rows};
ghost use Rattle.hh_rows.specs.declared.output.Form.TheVariants as form;
ghost use Rattle.hh_pieces.specs.Pieces.{ends_outside};
ghost use Rattle.hh_workers.specs.PlanTexts.{SpellsTree};
ghost use Rattle.hh_commands.specs.Describe.{description};
ghost use Rattle.hh_commands.specs.Records.{SavesStream};
ghost use Rattle.hh_library.specs.Add.{IsAdded};

use csv::ByteRecord;
use hh_commands::{Method, describe_file};
use hh_counters::Heavy;
use hh_counters::laws::counters_bound_weights;
use hh_countmin::Table;
use hh_faults::{SavedFault, TextError, ToolError};
use hh_files::table_files;
use hh_json::members;
use hh_library::{add_items, summary_bytes};
use hh_pieces::{ReadAt, SourceRecords, ends_outside_quotes, read_stream};
use hh_pool::{OpenGate, Options, Plan, RunError, analyse};
use hh_records::{Column, Format};
use hh_rows::{Form, Output, ReportOptions, RowOptions, Sink, printed_text};
use hh_saved::{Saved, read, write};
use hh_seals::seal;
use hh_shared::{SharedSums, SumSeat};
use hh_stream::{Cutting, Key, PushRefused, Stream};
use hh_summaries::{Summary, SummaryFault};
use hh_tally::Tally;
use json::Scratch;
use std::alloc::{AllocError, Global};
use std::io::Read;
use std::sync::Wait;
use std::thread::Threads;

/// The exit status of a program after a fault of records.
pub fn status_of_records(fault: TextError) -> u8
    ensures { result ≡ status_of (text_fault fault) }
{
    ToolError::from(fault).status()
}

/// The stream of one item.
pub fn stream_of_one(alloc: Global, key: Key, weight: u64) -> Result<Stream, PushRefused>
    ensures { IfOk result (λ stream. stream ≡ (key, weight) ∷ []) }
{
    let mut stream = Stream::new(alloc);
    stream.push(key, weight)?;
    Ok(stream)
}

/// Merges another summary into one, and tells how far a counter may be below its key's weight then.
pub fn slack_of_both(one: &mut Summary, other: &Summary) -> Result<u64, SummaryFault>
    ensures { OnOk result (one.new ≡ merge_of one.old other.now) }
{
    one.merge(other)?;
    Ok(one.slack())
}

/// Adds up what two workers have taken into tallies with the same room.
pub fn tally_of_both(alloc: Global, one: Tally, other: &Tally) -> Result<Tally, AllocError>
    requires room { one.room ≡ other.now.room }
    requires fits { one.total + other.now.total ≤ max_total }
    ensures { IfOk result (λ both. both ≡ merged_tally one other.now) }
{
    let both = one.merge(alloc, other)?;
    Ok(both)
}

/// The least and the most that a key weighs, as far as a summary tells.
pub fn bounds_of(summary: &Summary, key: &Key) -> (u64, u64)
    ensures least { (xs : List Entry)
        → IsHonest summary.now.counters (total_of xs) xs summary.now.k
        → result.0 ≤ weight_of key.now xs }
{
    counters_bound_weights();
    (summary.get(key), summary.slack())
}

/// Whether a key is estimated to weigh at most so much. It weighs no more than its estimate.
pub fn is_rare(table: &Table, key: &Key, most: u64) -> bool
    ensures { IsTrue result ↔ (estimate_in table.now key.now ≤ most) }
{
    table.estimate(key) <= most
}

/// The summary that a saved file holds; a file with a table holds none.
pub fn summary_in(alloc: Global, file: &[u8]) -> Result<Option<Summary>, SavedFault>
    ensures { IfOk result (λ found. IfSome found (λ summary.
        saved_of file.now ≡ Ok (Counters summary))) }
{
    match read(alloc, file)? {
        Saved::Counters(summary) => Ok(Some(summary)),
        Saved::Cells(_) => Ok(None),
    }
}

/// The sealed file of a summary of weights with two decimals.
pub fn sealed_summary(alloc: Global, summary: Summary) -> Result<Vec<u8>, SavedFault>
    ensures { IfOk result (λ file. Seals file.items 2 (Counters summary)) }
{
    let spelling = write(alloc, &Saved::Counters(summary))?;
    seal(alloc, 2, &spelling)
}

/// The record of a line of JSON: its key is the member `client`, and its weight the member `bytes`.
pub fn client_and_bytes(alloc: Global, line: &[u8]) -> Result<ByteRecord, AllocError>
    ensures { IfOk result (λ row. fields_of row
        ≡ json_fields (codes "client" ∷ []) (Some (codes "bytes")) line.now) }
{
    let mut scratch = Scratch::new(alloc);
    let mut row = ByteRecord::new(alloc);
    let names = [Column::Name(Vec::from_slice(alloc, b"client")?)];
    members(alloc, line, &names, Some(b"bytes"), &mut scratch, &mut row)?;
    Ok(row)
}

/// The total weight of the records of a reader.
pub fn total_of_records<R: Read + Drop>(alloc: Global, reader: R) -> Result<u64, TextError>
    ensures { IfOk result (λ total. (xs : List Entry)
        × ReadsAs (text_known (R.remaining reader)) (Ok xs)
        × (total ≡ total_of xs)) }
{
    let stream = read_stream(alloc, reader)?;
    Ok(stream.total())
}

/// The rows of a report, as JSON.
pub fn rows_as_json(alloc: Global, rows: &[Heavy]) -> Result<Vec<u8>, AllocError>
    ensures { IfOk result (λ text. text.items
        ≡ printed_rows 0 (all_rows (record (plain_output 0) { form = form.Json })) rows.now) }
{
    let output = Output {
        form: Form::Json,
        has_names: false,
        decimals: 0,
    };
    printed_text(alloc, 0, &RowOptions::all(output), rows)
}

/// Whether a line feed after a text of records ends a record.
pub fn ends_a_record(text: &[u8]) -> bool
    ensures { result ≡ ends_outside (delimited comma) text.now }
{
    ends_outside_quotes(text, Format::Csv, b',')
}

/// Adds to the first cell, if nobody else has claimed to do so.
pub fn add_once(sums: &SharedSums, seat: &mut SumSeat, amount: u64)
    requires seat { seat.old.sums ≡ sums.now }
    requires some { (0 < sums.now.claims) × (0 < sums.now.cells) }
    ensures { seat.new.sums ≡ sums.now }
{
    if sums.claim(seat, 0) {
        sums.add(seat, 0, amount);
    }
}

/// The plan that a text spells for three pieces.
pub fn plan_of_three(alloc: Global, text: &[u8]) -> Result<Plan, ToolError>
    ensures { IfOk result (λ plan. SpellsTree text.now plan) }
{
    Plan::parse(alloc, text, 3)
}

/// The heavy keys of a stream, by workers over four pieces.
pub fn heavy_keys<R: Threads + Wait + Sync>(
    rt: &R,
    alloc: Global,
    stream: &Stream,
    options: &Options,
) -> Result<Vec<Heavy>, AllocError>
    ensures { IfOk result (λ rows.
        rows.items ≡ heavy stream.now options.now.p options.now.q) }
{
    let cutting = Cutting::of_pieces(alloc, stream.len(), 4)?;
    let plan = Plan::chain(alloc, 4)?;
    match analyse(rt, alloc, stream, &cutting, &plan, options, &OpenGate) {
        Ok(outcome) => Ok(outcome.heavy),
        Err(RunError::PlanMismatch | RunError::Memory) => Err(AllocError),
    }
}

/// The rows of what is in a saved file.
pub fn facts_of(alloc: Global, file: &[u8]) -> Result<Vec<u8>, ToolError>
    ensures { IfOk result (λ rows. description (plain_output 0) file.now ≡ Ok rows.items) }
{
    describe_file(alloc, file, &Output::plain(0))
}

/// The saved summary of a reader's records, with 100 counters.
pub fn saved_summary<R: Read + Drop>(alloc: Global, reader: R) -> Result<Vec<u8>, ToolError>
    ensures { IfOk result (λ bytes. SavesStream (λ xs. Counters (sketch_of 100 xs))
        (text_known (R.remaining reader)) bytes.items) }
{
    summary_bytes(alloc, 100, Method::MisraGries, reader)
}

/// A saved summary or table with one more item.
pub fn with_item(alloc: Global, file: &[u8], key: &[u8], weight: u64) -> Result<Vec<u8>, ToolError>
    ensures { IfOk result (λ bytes. IsAdded file.now ((key.now, weight) ∷ []) bytes.items) }
{
    add_items(alloc, file, &[(key, weight)])
}

/// The saved table of the records of files, with 4 rows of 1,024 cells, by two workers.
pub fn table_of_files<T: Threads + Wait + Sync, S: ReadAt + Sync>(
    rt: &T,
    alloc: Global,
    records: SourceRecords<'_, S>,
) -> Result<Vec<u8>, ToolError>
    ensures { IfOk result (λ bytes. SavesStream (λ xs. Cells (table_of (drawn_family 0 4) 1024 xs))
        (sources_known S.bytes records.entry) bytes.items) }
{
    table_files(rt, alloc, 1024, 4, 0, 2, records)
}
