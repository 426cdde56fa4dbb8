//! Commands over the plain records of one reader, and rows of whole numbers.

ghost use Rattle.std.specs.Prelude.{◌≡◌, Ok, IfOk, IfErr, IfSome, Err, map, vec_items};
ghost use Rattle.hh_summaries.specs.Counters.{sketch_of};
ghost use Rattle.hh_countmin.specs.Family.{drawn_family};
ghost use Rattle.hh_countmin.specs.Table.{table_of};
ghost use Rattle.hh_records.specs.Streams.{text_known};
ghost use Rattle.hh_records.specs.Refusals.{RefusedAfter};
ghost use Rattle.hh_saved.specs.declared.saved.Saved.TheVariants.{Cells, Counters};
ghost use Rattle.hh_commands.specs.Ask.{answers};
ghost use Rattle.hh_commands.specs.Condense.{CondenseRefused, CondensesRows};
ghost use Rattle.hh_commands.specs.Confirm.{ConfirmRefused, ConfirmsRows};
ghost use Rattle.hh_commands.specs.Files.{Refuses, StopsAtHead};
ghost use Rattle.hh_commands.specs.Records.{SavesStream};
ghost use Rattle.hh_commands.specs.Summarise.{bad_k};
ghost use Rattle.hh_commands.specs.Table.{bad_table};

use crate::commands::confirm::confirm_records;
use hh_commands::{
    Comparison, Method, ask_rows, condense_bytes_from, summary_bytes_from, summary_in,
    table_bytes_from,
};
use hh_faults::ToolError;
use hh_pieces::Records;
use hh_rows::Output;
use std::alloc::Global;
use std::io::Read;

/// [`summary_bytes_from`](hh_commands::summary_bytes_from) of the records of a reader, whatever the
/// `method` is: both give the same bytes. Keys are hashed by the words that all runs have.
pub fn summary_bytes<R: Read + Drop>(
    alloc: Global,
    k: u64,
    method: Method,
    reader: R,
) -> Result<Vec<u8>, ToolError>
    ensures saved { IfOk result (λ bytes. SavesStream (λ xs. Counters (sketch_of k xs))
        (text_known (R.remaining reader)) bytes.items) }
    ensures refused { IfErr result (λ fault.
        RefusedAfter (bad_k k) (text_known (R.remaining reader)) fault) }
    ensures bad_k { IfSome (bad_k k) (λ fault. result ≡ Err fault) }
{
    let _ = method;
    summary_bytes_from(alloc, k, Records::of_reader(alloc, reader))
}

/// [`table_bytes_from`](hh_commands::table_bytes_from) of the records of a reader.
pub fn table_bytes<R: Read + Drop>(
    alloc: Global,
    width: u64,
    depth: u64,
    seed: u64,
    reader: R,
) -> Result<Vec<u8>, ToolError>
    ensures saved { IfOk result (λ bytes.
        SavesStream (λ xs. Cells (table_of (drawn_family seed depth) width xs))
        (text_known (R.remaining reader)) bytes.items) }
    ensures refused { IfErr result (λ fault.
        RefusedAfter (bad_table depth width) (text_known (R.remaining reader)) fault) }
    ensures bad_table { IfSome (bad_table depth width) (λ fault. result ≡ Err fault) }
{
    table_bytes_from(alloc, width, depth, seed, Records::of_reader(alloc, reader))
}

/// [`ask_rows`](hh_commands::ask_rows) as CSV, in whole numbers.
pub fn ask_bytes(alloc: Global, file: &[u8], keys: &[Vec<u8>]) -> Result<Vec<u8>, ToolError>
    ensures rows { IfOk result (λ text. answers file.now (map vec_items keys.now) ≡ Ok text.items) }
    ensures refused { IfErr result (λ fault.
        Refuses (answers file.now (map vec_items keys.now)) fault) }
    ensures early { StopsAtHead 1 file.now result }
{
    ask_rows(alloc, file, keys, &Output::plain(0))
}

/// [`condense_bytes_from`](hh_commands::condense_bytes_from) of the records of a reader, where a
/// key outside its bounds refuses nothing. Keys are hashed by the words that all runs have.
pub fn condense_bytes<R: Read + Drop>(
    alloc: Global,
    file: &[u8],
    reader: R,
) -> Result<Vec<u8>, ToolError>
    ensures rows { IfOk result (λ rows.
        CondensesRows 0 file.now (text_known (R.remaining reader)) rows.items) }
    ensures refused { IfErr result (λ fault.
        CondenseRefused file.now (text_known (R.remaining reader)) fault) }
    ensures early { StopsAtHead 1 file.now result }
{
    let records = Records::of_reader(alloc, reader);
    let output = Output::plain(0);
    condense_bytes_from(alloc, file, records, &output, &mut Comparison::new(false))
}

/// The report text of the saved summary's keys that are heavy in the stream of the reader's
/// records, as [`confirm`](crate::confirm) finds them. Keys are hashed by the words that all runs
/// have.
pub fn confirm_bytes<R: Read + Drop>(
    alloc: Global,
    file: &[u8],
    reader: R,
) -> Result<Vec<u8>, ToolError>
    ensures rows { IfOk result (λ rows.
        ConfirmsRows file.now (text_known (R.remaining reader)) rows.items) }
    ensures refused { IfErr result (λ fault.
        ConfirmRefused file.now (text_known (R.remaining reader)) fault) }
    ensures early { StopsAtHead 1 file.now result }
{
    let summary = summary_in(alloc, file)?;
    let share = (1, summary.k() + 1);
    confirm_records(alloc, &summary, share, Records::of_reader(alloc, reader))
}
