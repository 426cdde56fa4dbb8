//! The commands that read their records once.

ghost use Rattle.std.specs.Prelude.{◌≡◌, ◌⊎◌, ℕ, List, true, IfErr, IfOk, OnOk};
ghost use Rattle.hh_workers.specs.Workers.{max_workers};
ghost use Rattle.hh_stream.specs.Ranges.{in_range};
ghost use Rattle.hh_pieces.specs.Texts.{records_known};
ghost use Rattle.hh_pieces.specs.Sources.{sources_known};
ghost use Rattle.heavy_answers.specs.Answers.{IsFileOf, MakesInOnePass, MakesPass};
ghost use Rattle.heavy_answers.specs.Refusals.{FailsInOnePass, IsFileRefused, PassFails};

use crate::host::Host;
use crate::opening::{OnePass, open_once};
use crate::saved_files::saved_file;
use heavy_arguments::Pass;
use heavy_requests::Asked;
use hh_commands::{
    Comparison, Method, condense_bytes_from, confirm_rows, summary_bytes_from, table_bytes_from,
};
use hh_faults::ToolError;
use hh_files::{condense_files, confirm_files, summarise_files, table_files};
use hh_pieces::{ReadAt, Records, SourceRecords};
use std::alloc::Global;
use std::io::Read;
use std::sync::Wait;
use std::thread::Threads;

/// Whether one thread reads the records for `pass`, whatever they are: where one worker makes a
/// summary, its bytes are the same in each run.
fn is_alone(asked: &Asked, pass: Pass) -> bool
    ensures few { result ≡ true → in_range asked.now.options.workers max_workers ≡ true }
{
    pass == Pass::Summarise && asked.options.workers == 1
}

/// Reads the saved file that `pass` goes by, where it has one, or else tests the method of a
/// summary, which doesn't change its bytes.
fn file_of<H: Host>(host: &H, asked: &Asked, pass: Pass) -> Result<Vec<u8>, ToolError>
    ensures file { IfOk result (λ file. IsFileOf (H.gives host.now) pass asked.now file.items) }
    ensures refused { IfErr result (IsFileRefused (H.gives host.now) pass asked.now) }
{
    match pass {
        Pass::Summarise => {
            Method::of(&asked.method)?;
            Ok(Vec::new(host.alloc()))
        }
        Pass::Table => Ok(Vec::new(host.alloc())),
        Pass::Condense | Pass::Confirm => saved_file(host, asked),
    }
}

/// Makes what `pass` makes, by the saved `file`, of records that workers can read at any place.
fn answer_by_workers<T: Threads + Wait + Sync, F: ReadAt + Sync>(
    threads: &T,
    alloc: Global,
    asked: &Asked,
    pass: Pass,
    file: &[u8],
    records: SourceRecords<'_, F>,
    compared: &mut Comparison,
) -> Result<Vec<u8>, ToolError>
    ensures made { IfOk result (λ bytes. MakesInOnePass pass asked.now file.now
        compared.old.refuses compared.new.outside
        (sources_known F.bytes records.entry) bytes.items) }
    ensures workers { OnOk result (in_range asked.now.options.workers max_workers ≡ true) }
    ensures refused { IfErr result (FailsInOnePass pass asked.now file.now compared.old.refuses
        (sources_known F.bytes records.entry)) }
{
    let (options, rows) = (&asked.options, &asked.rows);
    let workers = options.workers;
    match pass {
        Pass::Summarise => summarise_files(threads, alloc, options.k, workers, records),
        Pass::Table => {
            let (width, depth, seed) = (options.width, options.depth, options.seed);
            table_files(threads, alloc, width, depth, seed, workers, records)
        }
        Pass::Condense => {
            let output = &rows.output;
            condense_files(threads, alloc, file, workers, records, output, compared)
        }
        Pass::Confirm => {
            let share = &options.threshold;
            confirm_files(
                threads, alloc, file, share, rows, workers, records, compared,
            )
        }
    }
}

/// Makes what `pass` makes, by the saved `file`, of records that this thread reads.
fn answer_by_one_thread<R: Read + Drop>(
    alloc: Global,
    asked: &Asked,
    pass: Pass,
    file: &[u8],
    records: Records<R>,
    compared: &mut Comparison,
) -> Result<Vec<u8>, ToolError>
    requires workers { in_range asked.now.options.workers max_workers ≡ true }
    ensures made { IfOk result (λ bytes. MakesInOnePass pass asked.now file.now
        compared.old.refuses compared.new.outside
        (records_known R.remaining records) bytes.items) }
    ensures refused { IfErr result (FailsInOnePass pass asked.now file.now compared.old.refuses
        (records_known R.remaining records)) }
{
    let (options, rows) = (&asked.options, &asked.rows);
    match pass {
        Pass::Summarise => summary_bytes_from(alloc, options.k, records),
        Pass::Table => {
            table_bytes_from(alloc, options.width, options.depth, options.seed, records)
        }
        Pass::Condense => condense_bytes_from(alloc, file, records, &rows.output, compared),
        Pass::Confirm => {
            let share = &options.threshold;
            confirm_rows(alloc, file, share, rows, records, compared)
        }
    }
}

/// Makes what `pass` makes of the records that are `asked` for. Workers read files of the disk; a
/// pipe is read by this thread.
pub(crate) fn in_one_pass<T: Threads + Wait + Sync, H: Host>(
    threads: &T,
    host: &H,
    asked: &Asked,
    pass: Pass,
    compared: &mut Comparison,
) -> Result<Vec<u8>, ToolError>
    ensures made { IfOk result (λ bytes. MakesPass (H.gives host.now) (H.opens host.now) pass
        asked.now compared.old.refuses compared.new.outside bytes.items) }
    ensures refused { IfErr result (PassFails (H.gives host.now) (H.opens host.now)
        (H.unopened host.now) pass asked.now compared.old.refuses) }
{
    let file = file_of(host, asked, pass)?;
    let alloc = host.alloc();
    match open_once(host, asked, is_alone(asked, pass))? {
        OnePass::Files(files) => {
            let records = files.records();
            let bytes = answer_by_workers(threads, alloc, asked, pass, &file, records, compared)?;
            Ok(bytes)
        }
        OnePass::Stream(records) => {
            answer_by_one_thread(alloc, asked, pass, &file, records, compared)
        }
    }
}
