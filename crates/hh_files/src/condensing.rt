//! Files condensed by a summary, which workers read in pieces.

ghost use Rattle.std.specs.Prelude.{◌≡◌, All, IfOk, IfErr, OnOk, true};
ghost use Rattle.hh_stream.specs.Ranges.{in_range};
ghost use Rattle.hh_workers.specs.Workers.{max_workers};
ghost use Rattle.hh_pieces.specs.Sources.{sources_known};
ghost use Rattle.hh_commands.specs.Bounds.{ComparesBounds};
ghost use Rattle.hh_commands.specs.Condense.{CondensesIn, TellsAbove};
ghost use Rattle.hh_files.specs.FilePasses.{CondenseFilesRefused};
ghost use Rattle.hh_commands.specs.Files.{StopsAtHead};

use crate::crew::Crew;
use crate::file_passes::count_sources;
use hh_commands::{Bounds, Comparison, condensed_part, summary_in};
use hh_counters::Candidates;
use hh_faults::ToolError;
use hh_pieces::{ReadAt, SourceRecords};
use hh_rows::Output;
use hh_stream::in_range;
use hh_workers::MAX_WORKERS;
use std::alloc::Global;
use std::sync::Wait;
use std::thread::Threads;

/// [`condense_bytes_from`](hh_commands::condense_bytes_from) of files of any size, or other bytes
/// that are read at any place. Workers read them in pieces, through a buffer each, and once.
/// Nothing of a file is kept. Where a piece can't be read by itself, one thread reads all files
/// from their starts, so that the first refusal comes with its number.
///
/// The saved file is tested first ([`ToolError::BadFile`], as file 1, and
/// [`ToolError::NotCounters`]), then the workers, of whom there are 1 to 64
/// ([`ToolError::BadWorkers`]), and then the records ([`ToolError::ReadFault`],
/// [`ToolError::NoColumn`], [`ToolError::BadRecord`]), whose total need not be the summary's, and
/// the higher bounds of the summary's keys ([`ToolError::WeightOutside`], where `compared` says
/// that they refuse), which are compared as
/// [`condense_bytes_from`](hh_commands::condense_bytes_from) does.
///
/// Where the bytes of all files are known, the rows are those of their records, one file after the
/// other. Where a file was changed while it was read, the error is [`ToolError::ReadFault`]; one
/// that has only grown wasn't ([`GrowingFile`](hh_pieces::GrowingFile)).
pub fn condense_files<T: Threads + Wait + Sync, S: ReadAt + Sync>(
    rt: &T,
    alloc: Global,
    file: &[u8],
    workers: u64,
    records: SourceRecords<'_, S>,
    output: &Output,
    compared: &mut Comparison,
) -> Result<Vec<u8>, ToolError>
    ensures rows { IfOk result (λ rows. CondensesIn output.now file.now
        (sources_known S.bytes records.entry) rows.items) }
    ensures bounds { OnOk result (ComparesBounds compared.old.refuses Bounds.High file.now
        (sources_known S.bytes records.entry) compared.new.outside) }
    ensures refused { IfErr result (CondenseFilesRefused compared.old.refuses workers file.now
        (sources_known S.bytes records.entry)) }
    ensures workers { OnOk result (in_range workers max_workers ≡ true) }
    ensures explained { IfErr result (TellsAbove file.now (sources_known S.bytes records.entry)
        compared.new) }
    ensures still { OnOk result (All S.still records.entry.sources.now) }
    ensures early { StopsAtHead 1 file.now result }
{
    let summary = summary_in(alloc, file)?;
    if !in_range(workers, MAX_WORKERS) {
        return Err(ToolError::BadWorkers);
    }
    let candidates = Candidates::with_hasher(alloc, &summary, records.layout.hash)?;
    let counts = count_sources(&Crew { rt, workers }, alloc, &candidates, records)?;
    condensed_part(alloc, &summary, &counts, output, compared)
}
