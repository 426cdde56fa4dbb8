//! Files of records that workers read in pieces: the one place that cuts them, shares them out,
//! falls back to one thread, and looks whether they are still the same.

ghost use Rattle.std.specs.Prelude.{◌<◌, ◌≤◌, [], All, IfOk, IfErr, IfSome, OnOk};
ghost use Rattle.hh_stream.specs.Cuttings.{max_pieces};
ghost use Rattle.hh_pieces.specs.Sources.{sources_known};
ghost use Rattle.hh_records.specs.Refusals.{RecordsRefused};
ghost use Rattle.hh_records.specs.Taking.{GathersRecords};

use crate::crew::Crew;
use crate::file_pieces::FilePieces;
use hh_faults::ToolError;
use hh_pieces::{CutFiles, ReadAt, SourceRecords};
use hh_records::gather_in_turn;
use hh_stream::{MAX_PIECES, PieceFault, Sketch};
use hh_workers::gather_pieces;
use std::alloc::{AllocError, Global};
use std::sync::Wait;
use std::thread::Threads;

/// The number of pieces in which workers read `texts` texts: four for each worker, and one for each
/// text.
fn piece_count<R>(crew: &Crew<'_, R>, texts: usize) -> usize
    ensures some { 0 < result }
    ensures few { result ≤ max_pieces }
{
    let pieces = 4 * crew.workers as usize;
    pieces + texts.min(MAX_PIECES - pieces)
}

/// What workers gather of `records`, with the settings of `start`, if each piece of the files can
/// be read by itself.
fn gather_side_by_side<R: Threads + Wait + Sync, S: ReadAt + Sync, T: Sketch>(
    crew: &Crew<'_, R>,
    alloc: Global,
    start: &T,
    records: SourceRecords<'_, S>,
) -> Result<Option<T>, AllocError>
    ensures { IfOk result (λ made. IfSome made
        (GathersRecords (T.is_of start.now) (sources_known S.bytes records.entry))) }
{
    start.follow_items();
    let most = piece_count(crew, records.sources.len());
    let Some(files) = CutFiles::new(alloc, records.layout, records.sources, most)? else {
        return Ok(None);
    };
    let pieces = FilePieces::new(files);
    match gather_pieces(crew.rt, alloc, &pieces, start, crew.workers) {
        Ok(made) => Ok(Some(made)),
        Err(PieceFault::Refused) => Ok(None),
        Err(PieceFault::Memory) => Err(AllocError),
    }
}

/// Gathers the items of `records` into `start`, a sketch of none. Workers read the files in pieces,
/// through a buffer each, and once; each makes a sketch of the items of its pieces, and these are
/// merged. If a piece can't be read by itself, one thread reads all files from their starts, so
/// that the first refusal has its number. If a file was changed meanwhile, the error is
/// [`ToolError::ReadFault`].
pub(crate) fn gather_by_workers<R: Threads + Wait + Sync, S: ReadAt + Sync, T: Sketch>(
    crew: &Crew<'_, R>,
    alloc: Global,
    start: T,
    records: SourceRecords<'_, S>,
) -> Result<T, ToolError>
    requires none { T.is_of start [] start }
    ensures made { IfOk result
        (GathersRecords (T.is_of start) (sources_known S.bytes records.entry)) }
    ensures still { OnOk result (All S.still records.entry.sources.now) }
    ensures refused { IfErr result (RecordsRefused (sources_known S.bytes records.entry)) }
{
    let made = match gather_side_by_side(crew, alloc, &start, records)? {
        Some(made) => made,
        None => gather_in_turn(alloc, start, records)?,
    };
    records.check()?;
    Ok(made)
}
