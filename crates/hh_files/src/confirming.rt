//! A summary confirmed by files, which workers read in pieces.

ghost use Rattle.std.specs.Prelude.{◌≡◌, All, IfOk, IfErr, OnOk, true};
ghost use Rattle.hh_stream.specs.Ranges.{in_range};
ghost use Rattle.hh_workers.specs.Workers.{max_workers};
ghost use Rattle.hh_pieces.specs.Sources.{sources_known};
ghost use Rattle.hh_commands.specs.Bounds.{ComparesBounds};
ghost use Rattle.hh_commands.specs.Confirm.{ConfirmsPrinted, TellsCompared};
ghost use Rattle.hh_files.specs.FilePasses.{ConfirmFilesRefused};
ghost use Rattle.hh_commands.specs.Files.{StopsAtHead};

use crate::crew::Crew;
use crate::file_passes::count_sources;
use hh_commands::{Bounds, Comparison, confirmed_text, summary_in};
use hh_counters::Candidates;
use hh_faults::ToolError;
use hh_pieces::{ReadAt, SourceRecords};
use hh_rows::{RowOptions, Share, threshold_of};
use hh_stream::in_range;
use hh_workers::MAX_WORKERS;
use std::alloc::Global;
use std::sync::Wait;
use std::thread::Threads;

/// [`confirm_rows`](hh_commands::confirm_rows) by files of any size, or other bytes that are read
/// at any place. Workers read them in pieces, through a buffer each, and once. Nothing of a file is
/// kept. Where a piece can't be read by itself, one thread reads all files from their starts, so
/// that the first refusal has its number.
///
/// The saved file is tested first ([`ToolError::BadFile`], as file 1, and
/// [`ToolError::NotCounters`]), then the share ([`ToolError::BadThreshold`]), then the workers, of
/// whom there are 1 to 64 ([`ToolError::BadWorkers`]). Then come the records
/// ([`ToolError::ReadFault`], [`ToolError::NoColumn`], [`ToolError::BadRecord`]), their total
/// ([`ToolError::TotalDiffers`]) and the bounds of the summary's keys
/// ([`ToolError::WeightOutside`], where `compared` says that they refuse), which are compared as
/// [`confirm_rows`](hh_commands::confirm_rows) does.
///
/// Where the bytes of all files are known, the rows are those of their records, one file after the
/// other. Where a file was changed while it was read, the error is [`ToolError::ReadFault`]; one
/// that has only grown wasn't ([`GrowingFile`](hh_pieces::GrowingFile)).
pub fn confirm_files<T: Threads + Wait + Sync, S: ReadAt + Sync>(
    rt: &T,
    alloc: Global,
    file: &[u8],
    share: &Share,
    rows: &RowOptions,
    workers: u64,
    records: SourceRecords<'_, S>,
    compared: &mut Comparison,
) -> Result<Vec<u8>, ToolError>
    ensures rows { IfOk result (λ text. ConfirmsPrinted rows.now share.now file.now
        (sources_known S.bytes records.entry) text.items) }
    ensures bounds { OnOk result (ComparesBounds compared.old.refuses Bounds.Both file.now
        (sources_known S.bytes records.entry) compared.new.outside) }
    ensures refused { IfErr result (ConfirmFilesRefused compared.old.refuses share.now workers
        file.now (sources_known S.bytes records.entry)) }
    ensures workers { OnOk result (in_range workers max_workers ≡ true) }
    ensures explained { IfErr result (TellsCompared file.now (sources_known S.bytes records.entry)
        compared.new) }
    ensures still { OnOk result (All S.still records.entry.sources.now) }
    ensures early { StopsAtHead 1 file.now result }
{
    let summary = summary_in(alloc, file)?;
    let Some(share) = threshold_of(summary.k(), share) else {
        return Err(ToolError::BadThreshold);
    };
    if !in_range(workers, MAX_WORKERS) {
        return Err(ToolError::BadWorkers);
    }
    let candidates = Candidates::with_hasher(alloc, &summary, records.layout.hash)?;
    let counts = count_sources(&Crew { rt, workers }, alloc, &candidates, records)?;
    confirmed_text(alloc, &summary, share, rows, &counts, compared)
}
