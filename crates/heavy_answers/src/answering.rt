//! The calls of the libraries that answer what is asked for.

ghost use Rattle.std.specs.Prelude.{◌≡◌, ◌⊎◌, false, map, true, IfErr, IfOk, OnOk};
ghost use Rattle.std.specs.Io.KnownBytes.{Keeps};
ghost use Rattle.heavy_host.specs.Replacing.{IsReplaced};
ghost use Rattle.hh_commands.specs.Files.{Refuses};
ghost use Rattle.hh_commands.specs.Merge.{merged_files};
ghost use Rattle.heavy_answers.specs.Answers.{Answers, IsAnswer, IsAnswered, MakesMerge};
ghost use Rattle.heavy_answers.specs.Answers.{OfRecords};
ghost use Rattle.heavy_answers.specs.Answers.{PrintsReport};
ghost use Rattle.heavy_answers.specs.Refusals.{Fails, FilesFail, IsRefused, IsRefusedInFile};
ghost use Rattle.heavy_answers.specs.Refusals.{OpenRefused};
ghost use Rattle.heavy_answers.specs.Refusals.{ReportFails, ReportRefused, TopFails};
ghost use Rattle.hh_files.specs.Report.{AreOptions, PrintsRows};
ghost use Rattle.hh_files.specs.TopFiles.{PrintsTop};

use crate::host::Host;
use crate::opening::{into_kept, open, open_records};
use crate::saved_files::{opened_files, saved_file};
use crate::single_pass::in_one_pass;
use heavy_arguments::Verb;
use heavy_host::{Replaced, read_files, replace};
use heavy_requests::Asked;
use hh_commands::{Comparison, ask_rows, describe_file, list_rows, merge_bytes};
use hh_faults::ToolError;
use hh_files::{TopOptions, check_options, report_files, report_once, report_rows, top_files};
use hh_rows::{Sink, put};
use hh_stream::in_range;
use hh_workers::MAX_WORKERS;
use std::sync::Wait;
use std::thread::Threads;

/// Reads the saved files `names`, merges them in this order and gives the bytes of the merged file.
/// All files are read before any is opened, and all are opened before any is read field by field. So
/// a file that can't be read is refused before one whose seal is wrong, and that before one whose
/// fields are. `clap` requires a name.
fn merged<H: Host>(host: &H, names: &[Vec<u8>]) -> Result<Vec<u8>, ToolError>
    ensures made { IfOk result (λ bytes. MakesMerge (H.gives host.now)
        (map (λ w. w.items) names.now) bytes.items) }
    ensures refused { IfErr result (FilesFail (H.gives host.now)
        (map (λ w. w.items) names.now) (λ files. Refuses (merged_files files))) }
{
    let files = read_files(host, names)?;
    if files.is_empty() {
        return Err(ToolError::Memory);
    }
    let opened = opened_files(host.alloc(), &files)?;
    merge_bytes(host.alloc(), &opened)
}

/// Makes the rows of the greatest keys of the records that are `asked` for, by counters that grow
/// up to as many megabytes. All inputs are opened first, then the number of workers is tested, and
/// only then is anything read.
fn top<T: Threads + Wait + Sync, H: Host>(
    threads: &T,
    host: &H,
    asked: &Asked,
) -> Result<Vec<u8>, ToolError>
    ensures made { IfOk result (λ bytes. OfRecords (H.opens host.now) asked.now.records
        (λ known. PrintsTop asked.now.rows asked.now.greatest known bytes.items)) }
    ensures refused { IfErr result
        (TopFails (H.opens host.now) (H.unopened host.now) asked.now) }
{
    let opened = open(host, asked)?;
    if !in_range(asked.options.workers, MAX_WORKERS) {
        return Err(ToolError::BadWorkers);
    }
    let files = into_kept(host, opened)?;
    let options = TopOptions {
        n: asked.greatest,
        workers: asked.options.workers,
        memory: asked.memory_bytes(),
    };
    let bytes = top_files(
        threads,
        host.alloc(),
        &options,
        &asked.rows,
        files.records(),
    )?;
    Ok(bytes)
}

/// Makes the rows of the report of the records that are `asked` for, which this thread reads once:
/// if once is asked for by counters alone, and else by a plan, which keeps all records.
fn report_in_turn<T: Threads + Wait + Sync, H: Host>(
    threads: &T,
    host: &H,
    asked: &Asked,
) -> Result<Vec<u8>, ToolError>
    ensures made { IfOk result (λ bytes. OfRecords (H.opens host.now) asked.now.records
        (λ known. AreOptions asked.now.options
        × PrintsRows asked.now.rows asked.now.options known bytes.items)) }
    ensures refused { IfErr result (λ fault. OpenRefused (H.unopened host.now) asked.now fault
        ⊎ OfRecords (H.opens host.now) asked.now.records
        (λ known. ReportRefused asked.now.once asked.now known fault)) }
{
    let records = open_records(host, asked)?;
    let (alloc, options, rows) = (host.alloc(), &asked.options, &asked.rows);
    if asked.once {
        report_once(alloc, options, rows, asked.memory_bytes(), records)
    } else {
        report_rows(threads, alloc, options, rows, records)
    }
}

/// Makes the rows of the report of the records that are `asked` for. All inputs are opened first,
/// then the options are tested, and only then is anything read: a pipe, which can be read only
/// once, is untouched when an option is refused. By a plan, or if once is asked for, this thread
/// reads the inputs once.
fn report<T: Threads + Wait + Sync, H: Host>(
    threads: &T,
    host: &H,
    asked: &Asked,
) -> Result<Vec<u8>, ToolError>
    ensures made { IfOk result (λ bytes. OfRecords (H.opens host.now) asked.now.records
        (λ known. PrintsReport asked.now known bytes.items)) }
    ensures refused { IfErr result
        (ReportFails (H.opens host.now) (H.unopened host.now) asked.now) }
{
    let alloc = host.alloc();
    if asked.once || asked.by_plan {
        return report_in_turn(threads, host, asked);
    }
    let opened = open(host, asked)?;
    check_options(&asked.options)?;
    let files = into_kept(host, opened)?;
    let bytes = report_files(threads, alloc, &asked.options, &asked.rows, files.records())?;
    Ok(bytes)
}

/// Makes the whole output of what is `asked` for. It stores in `compared` where a saved summary and
/// the records differ.
fn bytes_of<T: Threads + Wait + Sync, H: Host>(
    threads: &T,
    host: &H,
    asked: &Asked,
    compared: &mut Comparison,
) -> Result<Vec<u8>, ToolError>
    ensures made { IfOk result (λ bytes. Answers (H.gives host.now) (H.opens host.now)
        asked.now.verb asked.now compared.old.refuses compared.new.outside bytes.items) }
    ensures refused { IfErr result (Fails (H.gives host.now) (H.opens host.now)
        (H.unopened host.now) asked.now.verb asked.now compared.old.refuses) }
{
    let (alloc, output) = (host.alloc(), &asked.rows.output);
    match asked.verb {
        Verb::Report => report(threads, host, asked),
        Verb::Top => top(threads, host, asked),
        Verb::Pass(pass) => in_one_pass(threads, host, asked, pass, compared),
        Verb::Merge => merged(host, &asked.files),
        Verb::Ask => {
            let file = saved_file(host, asked)?;
            ask_rows(alloc, &file, &asked.keys, output)
        }
        Verb::List => list_rows(alloc, &saved_file(host, asked)?, output),
        Verb::Describe => describe_file(alloc, &saved_file(host, asked)?, output),
    }
}

/// Answers the command line `asked`: reads the files that it names from `host`, calls the library
/// and writes the output to `sink`. It stores in `compared` where a saved summary and the records
/// differ. A key outside its bounds refuses the records, but for plain ones on standard input.
/// Nothing is written before the whole answer is known, so that only a failed write leaves a part
/// of the output in `sink`.
pub fn answer<T: Threads + Wait + Sync, H: Host, S: Sink>(
    threads: &T,
    host: &H,
    asked: &Asked,
    sink: &mut S,
    compared: &mut Comparison,
) -> Result<(), ToolError>
    requires { S.has_failed sink.old ≡ false }
    ensures answered { OnOk result (IsAnswered (H.gives host.now) (H.opens host.now) asked.now
        compared.new.outside (S.taken sink.old) (S.taken sink.new)) }
    ensures refused { IfErr result (IsRefused (H.gives host.now) (H.opens host.now)
        (H.unopened host.now) asked.now compared.new.outside
        (S.taken sink.old) (S.taken sink.new)) }
    ensures flushed { OnOk result (S.is_flushed sink.new ≡ true) }
{
    compared.refuses = !asked.records.are_plain();
    let bytes = bytes_of(threads, host, asked, compared)?;
    put(sink, &bytes)?;
    Ok(())
}

/// Answers the command line `asked` as [`answer`] does, in a new file that replaces `file`, and
/// gives its bytes. Where that fails, `file` is as it was, and no new one stands beside it. The new
/// one is made once the whole answer is known.
pub fn answer_in_file<T: Threads + Wait + Sync, H: Host, R: Replaced>(
    threads: &T,
    host: &H,
    asked: &Asked,
    file: &mut R,
    compared: &mut Comparison,
) -> Result<Vec<u8>, ToolError>
    ensures answered { IfOk result (λ bytes. IsAnswer (H.gives host.now) (H.opens host.now)
        asked.now compared.new.outside bytes.items) }
    ensures replaced { IfOk result (λ bytes.
        IsReplaced (R.holds file.old) (R.holds file.new) bytes.items) }
    ensures refused { IfErr result (IsRefusedInFile (H.gives host.now) (H.opens host.now)
        (H.unopened host.now) asked.now) }
    ensures kept { IfErr result (λ _. Keeps (R.holds file.old) (R.holds file.new)) }
    ensures alone { R.is_alone file.old ≡ true → R.is_alone file.new ≡ true }
{
    compared.refuses = !asked.records.are_plain();
    let bytes = bytes_of(threads, host, asked, compared)?;
    replace(file, &bytes)?;
    Ok(bytes)
}
