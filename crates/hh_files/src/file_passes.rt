//! One pass over files, by workers: counts, weights and tallies.

ghost use Rattle.std.specs.Prelude.{◌≡◌, All, length, IfOk, IfErr, OnOk};
ghost use Rattle.hh_tally.specs.Tallies.{IsRoom};
ghost use Rattle.hh_pieces.specs.Sources.{sources_known};
ghost use Rattle.hh_commands.specs.Records.{CountsRecords};
ghost use Rattle.hh_records.specs.Refusals.{RecordsRefused};
ghost use Rattle.hh_files.specs.FilePasses.{TalliesRecords, WeighsRecords};

use crate::by_workers::gather_by_workers;
use crate::crew::Crew;
use hh_counters::{Candidates, Counts};
use hh_faults::ToolError;
use hh_pieces::{ReadAt, SourceRecords};
use hh_tally::laws::tallies_bound_weights;
use hh_tally::{Room, Tally};
use std::alloc::Global;
use std::sync::Wait;
use std::thread::Threads;

/// The counts of `candidates` in `records`.
pub(crate) fn count_sources<'c, T: Threads + Wait + Sync, S: ReadAt + Sync>(
    crew: &Crew<'_, T>,
    alloc: Global,
    candidates: &'c Candidates,
    records: SourceRecords<'_, S>,
) -> Result<Counts<'c>, ToolError>
    ensures counts { IfOk result
        (CountsRecords (sources_known S.bytes records.entry) candidates.now) }
    ensures still { OnOk result (All S.still records.entry.sources.now) }
    ensures refused { IfErr result (RecordsRefused (sources_known S.bytes records.entry)) }
{
    let start = Counts::new(alloc, candidates)?;
    gather_by_workers(crew, alloc, start, records)
}

/// The weights of `candidates` in `records`, whose tally has this `total`. The records are read
/// only if there are candidates. If the count has another total, the error is
/// [`ToolError::ReadFault`].
pub(crate) fn weights_in<T: Threads + Wait + Sync, S: ReadAt + Sync>(
    crew: &Crew<'_, T>,
    alloc: Global,
    total: u64,
    candidates: &Candidates,
    records: SourceRecords<'_, S>,
) -> Result<Vec<u64>, ToolError>
    requires still { All S.still records.sources.now }
    ensures count { IfOk result (λ weights. length weights.items ≡ length candidates.now) }
    ensures weights { IfOk result (λ weights. WeighsRecords
        (sources_known S.bytes records.entry) candidates.now weights.items) }
    ensures still { OnOk result (All S.still records.entry.sources.now) }
    ensures refused { IfErr result (RecordsRefused (sources_known S.bytes records.entry)) }
{
    if candidates.is_empty() {
        return Ok(Vec::new(alloc));
    }
    let counts = count_sources(crew, alloc, candidates, records)?;
    if counts.total() != total {
        return Err(ToolError::ReadFault);
    }
    Ok(counts.into_weights())
}

/// The tally of `records`, with this `room` for each worker.
pub(crate) fn tally_of_sources<T: Threads + Wait + Sync, S: ReadAt + Sync>(
    crew: &Crew<'_, T>,
    alloc: Global,
    room: Room,
    records: SourceRecords<'_, S>,
) -> Result<Tally, ToolError>
    requires room { IsRoom room }
    ensures tally { IfOk result (TalliesRecords room (sources_known S.bytes records.entry)) }
    ensures still { OnOk result (All S.still records.entry.sources.now) }
    ensures refused { IfErr result (RecordsRefused (sources_known S.bytes records.entry)) }
{
    tallies_bound_weights();
    let start = Tally::new(alloc, room, records.layout.hash)?;
    gather_by_workers(crew, alloc, start, records)
}
