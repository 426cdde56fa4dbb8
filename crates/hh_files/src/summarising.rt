//! Files summarised, which workers read in pieces.

ghost use Rattle.std.specs.Prelude.{◌≡◌, All, true, IfOk, IfErr, IfSome, OnOk, Err};
ghost use Rattle.hh_stream.specs.Ranges.{in_range};
ghost use Rattle.hh_summaries.specs.Counters.{max_k, sketch_of};
ghost use Rattle.hh_saved.specs.declared.saved.Saved.TheVariants.{Counters};
ghost use Rattle.hh_pieces.specs.Sources.{sources_known};
ghost use Rattle.hh_records.specs.Refusals.{RecordsRefused, RefusedAfter};
ghost use Rattle.hh_commands.specs.Records.{SavesStream};
ghost use Rattle.hh_files.specs.SummaryFiles.{SavesSummary, SummarisesRecords};
ghost use Rattle.hh_files.specs.SummaryFiles.{bad_summary_of_files};

use crate::crew::Crew;
use crate::file_passes::tally_of_sources;
use hh_commands::summary_bytes_from;
use hh_counters::laws::misra_gries_is_honest;
use hh_counters::{MAX_K, Summary};
use hh_faults::ToolError;
use hh_pieces::{ReadAt, SourceRecords};
use hh_saved::{Saved, write};
use hh_stream::in_range;
use hh_tally::Room;
use hh_workers::MAX_WORKERS;
use std::alloc::Global;
use std::sync::Wait;
use std::thread::Threads;

/// The summary of records in files: the `k` greatest counters of their tally, with as much room as
/// these want for each worker.
fn summary_of_sources<T: Threads + Wait + Sync, S: ReadAt + Sync>(
    crew: &Crew<'_, T>,
    alloc: Global,
    k: u64,
    records: SourceRecords<'_, S>,
) -> Result<Summary, ToolError>
    requires k { in_range k max_k ≡ true }
    ensures summary { IfOk result (SummarisesRecords k (sources_known S.bytes records.entry)) }
    ensures still { OnOk result (All S.still records.entry.sources.now) }
    ensures refused { IfErr result (RecordsRefused (sources_known S.bytes records.entry)) }
{
    let room = Room::for_counters(k);
    let tally = tally_of_sources(crew, alloc, room, records)?;
    let summary = tally.into_summary(alloc, k)?;
    Ok(summary)
}

/// The saved summary of files of any size, or other bytes that are read at any place: one with `k`
/// counters that promises what [`summary_bytes_from`](hh_commands::summary_bytes_from)'s does, and
/// is merged, asked, listed, confirmed and condensed by as that one is.
///
/// One worker makes the very bytes of that call. Two or more read the files in pieces, through a
/// buffer each, and once; each tallies the items of its pieces, and the `k` greatest counters of
/// all are kept, each less the next one. Within what a summary promises they may differ from run
/// to run, by which worker reads which piece. Nothing of a file is kept. Where a piece can't be
/// read by itself, one thread reads all files from their starts, so that the first refusal has its
/// number.
///
/// k is tested first ([`ToolError::BadK`]), then the workers, of whom there are 1 to 64
/// ([`ToolError::BadWorkers`]), and then come the records ([`ToolError::ReadFault`],
/// [`ToolError::NoColumn`], [`ToolError::BadRecord`]).
///
/// Where the bytes of all files are known, the summary is one of their records, one file after the
/// other. Where a file was changed while it was read, the error is [`ToolError::ReadFault`]; one
/// that has only grown wasn't ([`GrowingFile`](hh_pieces::GrowingFile)).
pub fn summarise_files<T: Threads + Wait + Sync, S: ReadAt + Sync>(
    rt: &T,
    alloc: Global,
    k: u64,
    workers: u64,
    records: SourceRecords<'_, S>,
) -> Result<Vec<u8>, ToolError>
    ensures saved { IfOk result (λ bytes. SavesSummary k (sources_known S.bytes records.entry)
        bytes.items) }
    ensures one_worker { workers ≡ 1 → IfOk result (λ bytes.
        SavesStream (λ xs. Counters (sketch_of k xs)) (sources_known S.bytes records.entry)
        bytes.items) }
    ensures still { OnOk result (All S.still records.entry.sources.now) }
    ensures refused { IfErr result (RefusedAfter (bad_summary_of_files k workers)
        (sources_known S.bytes records.entry)) }
    ensures bad_option { IfSome (bad_summary_of_files k workers)
        (λ fault. result ≡ Err fault) }
{
    misra_gries_is_honest();
    if !in_range(k, MAX_K) {
        return Err(ToolError::BadK);
    }
    if !in_range(workers, MAX_WORKERS) {
        return Err(ToolError::BadWorkers);
    }
    if workers == 1 {
        let bytes = summary_bytes_from(alloc, k, records)?;
        records.check()?;
        return Ok(bytes);
    }
    let summary = summary_of_sources(&Crew { rt, workers }, alloc, k, records)?;
    Ok(write(alloc, &Saved::Counters(summary))?)
}
