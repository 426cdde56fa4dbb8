//! The rows of a report.

ghost use Rattle.std.specs.Prelude.{◌≡◌, ◌++◌, false, true, IfOk, IfErr, OnOk};
ghost use Rattle.std.specs.Io.KnownBytes.{Appends};
ghost use Rattle.csv.specs.Writing.{default_writer, quoted};
ghost use Rattle.hh_rows.specs.Rows.{condensed_in, first_row, is_marked, quoted_row_by, rows_of};
ghost use Rattle.hh_rows.specs.Sinks.{TextNotWritten, failed_by};

use crate::output::{Form, Output};
use crate::printed::{RowOptions, WEIGHTS, printed_text, with_printed};
use crate::row_writer::RowWriter;
use crate::sink::{Sink, put};
use csv::{QuoteStyle, WriterBuilder};
use hh_counters::Heavy;
use hh_faults::ToolError;
use hh_records::pointed;
use hh_stream::Key;
use std::alloc::{AllocError, Global};

/// The three bytes of U+FEFF in UTF-8.
const BYTE_ORDER_MARK: &[u8] = b"\xef\xbb\xbf";

/// The rows of a report as `csv` writes them, `key,weight`, each ended by a line feed.
pub fn report_text(alloc: Global, rows: &[Heavy]) -> Result<Vec<u8>, AllocError>
    ensures { IfOk result (λ text. text.items ≡ rows_of rows.now) }
{
    printed_text(alloc, 0, &RowOptions::all(Output::plain(0)), rows)
}

/// Whether a reader of rows in this `form` takes off the first bytes of a `key` that stands first:
/// those of a byte order mark that isn't in quotes.
fn is_marked(form: Form, key: &Key) -> bool
    ensures { result ≡ is_marked form key.now }
{
    form == Form::Csv && key.bytes().starts_with(BYTE_ORDER_MARK)
}

/// A key in quotes.
#[tactic(auto, using(crate::proofs::RowFacts::same_escaped))]
fn quoted_key(alloc: Global, key: &Key) -> Result<Vec<u8>, AllocError>
    ensures { IfOk result (λ text. text.items ≡ quoted default_writer key.now) }
{
    let mut writer = WriterBuilder::new()
        .quote_style(QuoteStyle::Always)
        .from_writer(Vec::new(alloc));
    match writer.write_field(key.bytes()) {
        Ok(()) => {}
        Err(_) => return Err(AllocError),
    }
    match writer.into_inner() {
        Ok(text) => Ok(text),
        Err(_) => Err(AllocError),
    }
}

/// `before`, and after it a row of CSV whose key is in quotes.
fn with_quoted_row(
    alloc: Global,
    before: Vec<u8>,
    row: &Heavy,
    decimals: u8,
) -> Result<Vec<u8>, AllocError>
    ensures { IfOk result (λ text. text.items ≡ before.items ++ quoted_row_by decimals row.now) }
{
    let mut text = before;
    text.extend_from_slice(quoted_key(alloc, &row.key)?.as_slice())?;
    text.push(b',')?;
    text.extend_from_slice(pointed(alloc, u128::from(row.weight), decimals)?.as_slice())?;
    text.push(b'\n')?;
    Ok(text)
}

/// The row of condensed records that may stand first in a text, and that of the names before it.
fn first_row(alloc: Global, row: &Heavy, output: &Output) -> Result<RowWriter, AllocError>
    ensures { IfOk result (λ rows. rows ≡ first_row output.now row.now) }
{
    let mut rows = RowWriter::new(alloc, output, WEIGHTS)?;
    if is_marked(output.form, &row.key) {
        let text = with_quoted_row(alloc, rows.into_text()?, row, output.decimals)?;
        return Ok(RowWriter::after(text, output.form, WEIGHTS));
    }
    let weight = pointed(alloc, u128::from(row.weight), output.decimals)?;
    rows.push(alloc, &[row.key.bytes(), weight.as_slice()])?;
    Ok(rows)
}

/// The rows of condensed records: as those of a report, but that in CSV the first key is in quotes
/// where it begins with the three bytes of a byte order mark.
pub fn condensed_text(alloc: Global, rows: &[Heavy], output: &Output) -> Result<Vec<u8>, AllocError>
    ensures { IfOk result (λ text. text.items ≡ condensed_in output.now rows.now) }
{
    let Some((first, rest)) = rows.split_first() else {
        return RowWriter::new(alloc, output, WEIGHTS)?.into_text();
    };
    let before = first_row(alloc, first, output)?;
    with_printed(alloc, before, 0, &RowOptions::all(*output), rest)
}

/// Writes the rows of a report, as [`put`] writes [`report_text`]. The error is `Memory`, before
/// anything is written, or `WriteFault` with the number of bytes that the sink took.
pub fn write_report<S: Sink>(alloc: Global, sink: &mut S, rows: &[Heavy]) -> Result<(), ToolError>
    requires { S.has_failed sink.old ≡ false }
    ensures all { OnOk result (Appends (S.taken sink.old) (S.taken sink.new) (rows_of rows.now)) }
    ensures refused { IfErr result
        (TextNotWritten (rows_of rows.now) (S.taken sink.old) (S.taken sink.new)) }
    ensures flushed { OnOk result (S.is_flushed sink.new ≡ true) }
    ensures failed { S.has_failed sink.new ≡ failed_by result }
{
    let text = report_text(alloc, rows)?;
    put(sink, text.as_slice())?;
    Ok(())
}
