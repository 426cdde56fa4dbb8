//! Files counted in a saved table, which workers read in pieces.

ghost use Rattle.std.specs.Prelude.{◌≡◌, All, IfOk, IfErr, IfSome, OnOk, Err};
ghost use Rattle.hh_countmin.specs.Family.{drawn_family};
ghost use Rattle.hh_countmin.specs.Table.{table_of};
ghost use Rattle.hh_pieces.specs.Sources.{sources_known};
ghost use Rattle.hh_saved.specs.declared.saved.Saved.TheVariants.{Cells};
ghost use Rattle.hh_commands.specs.Records.{SavesStream};
ghost use Rattle.hh_records.specs.Refusals.{RefusedAfter};
ghost use Rattle.hh_files.specs.TableFiles.{bad_table_of_files};

use crate::by_workers::gather_by_workers;
use crate::crew::Crew;
use hh_commands::drawn_table;
use hh_countmin::{MAX_DEPTH, MAX_WIDTH};
use hh_faults::ToolError;
use hh_pieces::{ReadAt, SourceRecords};
use hh_saved::{Saved, write};
use hh_stream::in_range;
use hh_workers::MAX_WORKERS;
use std::alloc::Global;
use std::sync::Wait;
use std::thread::Threads;

/// [`table_bytes_from`](hh_commands::table_bytes_from) of files of any size, or other bytes that
/// are read at any place. Workers read them in pieces, through a buffer each, and once; each fills
/// a table of its own, and these are merged. Nothing of a file is kept. Where a piece can't be read
/// by itself, one thread reads all files from their starts, so that the first refusal has its
/// number.
///
/// The depth is tested first ([`ToolError::BadDepth`]), then the width ([`ToolError::BadWidth`]),
/// then the workers, of whom there are 1 to 64 ([`ToolError::BadWorkers`]), and then come the
/// records ([`ToolError::ReadFault`], [`ToolError::NoColumn`], [`ToolError::BadRecord`]).
///
/// Where the bytes of all files are known, the table is that of their records, one file after the
/// other. Where a file was changed while it was read, the error is [`ToolError::ReadFault`]; one
/// that has only grown wasn't ([`GrowingFile`](hh_pieces::GrowingFile)).
pub fn table_files<T: Threads + Wait + Sync, S: ReadAt + Sync>(
    rt: &T,
    alloc: Global,
    width: u64,
    depth: u64,
    seed: u64,
    workers: u64,
    records: SourceRecords<'_, S>,
) -> Result<Vec<u8>, ToolError>
    ensures saved { IfOk result (λ bytes. SavesStream (λ xs. Cells (table_of (drawn_family seed
        depth) width xs)) (sources_known S.bytes records.entry) bytes.items) }
    ensures still { OnOk result (All S.still records.entry.sources.now) }
    ensures refused { IfErr result (RefusedAfter (bad_table_of_files depth width workers)
        (sources_known S.bytes records.entry)) }
    ensures bad_table { IfSome (bad_table_of_files depth width workers)
        (λ fault. result ≡ Err fault) }
{
    if !in_range(depth, MAX_DEPTH) {
        return Err(ToolError::BadDepth);
    }
    if !in_range(width, MAX_WIDTH) {
        return Err(ToolError::BadWidth);
    }
    if !in_range(workers, MAX_WORKERS) {
        return Err(ToolError::BadWorkers);
    }
    let start = drawn_table(alloc, width, depth, seed)?;
    let table = gather_by_workers(&Crew { rt, workers }, alloc, start, records)?;
    Ok(write(alloc, &Saved::Cells(table))?)
}
