//! The greatest keys of files, which workers read in pieces, up to three times.

ghost use Rattle.std.specs.Prelude.{◌≡◌, ◌+◌, ◌*◌, ◌≤◌, All, true, IfOk, IfErr, OnOk};
ghost use Rattle.hh_stream.specs.Ranges.{in_range};
ghost use Rattle.hh_summaries.specs.Counters.{max_k};
ghost use Rattle.hh_tally.specs.Tallies.{IsRoom};
ghost use Rattle.hh_top.specs.Rooms.{counted_in};
ghost use Rattle.hh_workers.specs.Workers.{max_workers};
ghost use Rattle.hh_pieces.specs.Sources.{sources_known};
ghost use Rattle.hh_records.specs.Refusals.{RecordsRefused};
ghost use Rattle.hh_files.specs.FilePasses.{TalliesRecords};
ghost use Rattle.hh_files.specs.TopFiles.{FindsTop, IsSharedRoom, ListRefused, PrintsTop};
ghost use Rattle.hh_files.specs.TopFiles.{TopFilesRefused, TopRefused};

use crate::crew::Crew;
use crate::file_passes::{tally_of_sources, weights_in};
use hh_counters::Heavy;
use hh_faults::ToolError;
use hh_pieces::{ReadAt, SourceRecords};
use hh_rows::{RowOptions, printed_text};
use hh_stream::{TakeItems, in_range};
use hh_tally::Room;
use hh_top::{Shortlist, counted_in, shared_room, whole_room};
use hh_workers::MAX_WORKERS;
use std::alloc::Global;
use std::sync::Wait;
use std::thread::Threads;

/// What [`top_files`] finds, and with what.
#[derive(Clone, Copy, Debug, PartialEq, Eq)]
pub struct TopOptions {
    /// How many keys are wanted.
    pub n: u64,
    /// The number of workers: 1 to 64.
    pub workers: u64,
    /// How many bytes of memory counters may take, a few more or less: the workers' together, and
    /// then, where those don't tell the greatest, those of one worker. 256,000 are the least.
    pub memory: u64,
}

/// The shortlist of the `n` greatest keys, of which at most `k` are to be counted, by a tally of
/// `records` that workers make with this `room` each.
fn shortlist_by<T: Threads + Wait + Sync, S: ReadAt + Sync>(
    crew: &Crew<'_, T>,
    alloc: Global,
    n: u64,
    k: u64,
    room: Room,
    records: SourceRecords<'_, S>,
) -> Result<Shortlist, ToolError>
    requires room { IsRoom room }
    requires share { 2 * (k + 1) ≤ room.few }
    requires most { k ≤ max_k }
    ensures n { IfOk result (λ list. list.n ≡ n) }
    ensures k { IfOk result (λ list. list.k ≡ k) }
    ensures room { IfOk result (λ list. list.tally.room ≡ room) }
    ensures tally { IfOk result (λ list. TalliesRecords list.tally.room
        (sources_known S.bytes records.entry) list.tally) }
    ensures still { OnOk result (All S.still records.entry.sources.now) }
    ensures refused { IfErr result (RecordsRefused (sources_known S.bytes records.entry)) }
{
    let tally = tally_of_sources(crew, alloc, room, records)?;
    Ok(Shortlist::of(alloc, tally, n, k)?)
}

/// The shortlist of a tally of `records`. Workers share the memory evenly first. Where that doesn't
/// tell the greatest keys, one worker tallies them again with all of it: what is refused then
/// doesn't depend on who took which piece. If two readings have different totals, the error is
/// [`ToolError::ReadFault`].
fn shortlist_of<T: Threads + Wait + Sync, S: ReadAt + Sync>(
    rt: &T,
    alloc: Global,
    options: &TopOptions,
    records: SourceRecords<'_, S>,
) -> Result<Shortlist, ToolError>
    requires workers { in_range options.now.workers max_workers ≡ true }
    ensures n { IfOk result (λ list. list.n ≡ options.now.n) }
    ensures room { IfOk result (IsSharedRoom options.now) }
    ensures tally { IfOk result (λ list. TalliesRecords list.tally.room
        (sources_known S.bytes records.entry) list.tally) }
    ensures still { OnOk result (All S.still records.entry.sources.now) }
    ensures refused { IfErr result (RecordsRefused (sources_known S.bytes records.entry)) }
{
    let (n, workers, memory) = (options.n, options.workers, options.memory);
    let share = memory / workers;
    let (k, room) = (counted_in(share), shared_room(share));
    let list = shortlist_by(&Crew { rt, workers }, alloc, n, k, room, records)?;
    if list.tally().is_exact() || list.stands_out() {
        return Ok(list);
    }
    let total = list.tally().total();
    drop(list);
    let (k, room) = (counted_in(memory), whole_room(memory));
    let grown = shortlist_by(&Crew { rt, workers: 1 }, alloc, n, k, room, records)?;
    if grown.tally().total() != total {
        return Err(ToolError::ReadFault);
    }
    Ok(grown)
}

/// Finds the greatest keys of `records`, of whose tally this is the shortlist: by its counters
/// where it lost nothing, and else by counting those that can be among them, but of which the tally
/// isn't sure.
fn top_of_list<T: Threads + Wait + Sync, S: ReadAt + Sync>(
    crew: &Crew<'_, T>,
    alloc: Global,
    list: &Shortlist,
    records: SourceRecords<'_, S>,
) -> Result<Vec<Heavy>, ToolError>
    requires tally { TalliesRecords list.now.tally.room
        (sources_known S.bytes records) list.now.tally }
    requires still { All S.still records.sources.now }
    ensures keys { IfOk result (λ keys. FindsTop list.now.n
        (sources_known S.bytes records.entry) list.now.tally.total keys.items) }
    ensures still { OnOk result (All S.still records.entry.sources.now) }
    ensures refused { IfErr result
        (ListRefused list.now (sources_known S.bytes records.entry)) }
{
    if list.tally().is_exact() {
        return Ok(list.greatest_counters(alloc)?);
    }
    let choice = list.choice(alloc, records.layout.hash)?;
    let total = list.tally().total();
    let counted = match weights_in(crew, alloc, total, &choice, records) {
        Ok(counted) => counted,
        Err(fault) => return Err(fault),
    };
    list.greatest(alloc, &counted)
}

/// Finds the total of `records` and their greatest keys.
fn top_of_sources<T: Threads + Wait + Sync, S: ReadAt + Sync>(
    rt: &T,
    alloc: Global,
    options: &TopOptions,
    records: SourceRecords<'_, S>,
) -> Result<(u64, Vec<Heavy>), ToolError>
    requires workers { in_range options.now.workers max_workers ≡ true }
    ensures keys { IfOk result (λ keys. FindsTop options.now.n
        (sources_known S.bytes records.entry) keys.0 keys.1.items) }
    ensures still { OnOk result (All S.still records.entry.sources.now) }
    ensures refused { IfErr result (TopRefused options.now.n (counted_in options.now.memory)
        (sources_known S.bytes records.entry)) }
{
    let list = match shortlist_of(rt, alloc, options, records) {
        Ok(list) => list,
        Err(fault) => return Err(fault),
    };
    let crew = Crew {
        rt,
        workers: options.workers,
    };
    match top_of_list(&crew, alloc, &list, records) {
        Ok(keys) => Ok((list.tally().total(), keys)),
        Err(fault) => Err(fault),
    }
}

/// The greatest keys of files of any size, as many as the options say, or of other bytes that are
/// read at any place, with their weights, by falling weight and then by rising key; all keys where
/// they are fewer. Workers read the files in pieces, through a buffer each: once where the counters
/// tell the weight of each key that can be among the greatest, and else once more, to count the
/// others that can. The workers share the options' memory
/// evenly for that, and a worker has at most 131,072 counters. Where these don't tell, one worker
/// tallies the files anew before that, with all of the memory, and only what it leaves open is
/// refused. Nothing of a file is kept. Where a piece can't be read by itself, one thread reads all
/// files from their starts, so that the first refusal has its number.
///
/// The workers are tested first, of whom there are 1 to 64 ([`ToolError::BadWorkers`]), and then
/// come the records ([`ToolError::ReadFault`], [`ToolError::NoColumn`],
/// [`ToolError::BadRecord`]). Where fewer keys than are wanted weigh more than a key that wasn't
/// counted can, the error is [`ToolError::TopUncertain`]: with how many do, and with what such a
/// key can weigh. That is at most the total divided by 65,536, and where the memory is less than
/// 65,536 times 8,000 bytes, divided by an eight-thousandth of its bytes.
///
/// Where the bytes of all files are known, the rows are those of their records, one file after the
/// other. Where a file was changed while it was read, the error is [`ToolError::ReadFault`]; one
/// that has only grown wasn't ([`GrowingFile`](hh_pieces::GrowingFile)).
pub fn top_files<T: Threads + Wait + Sync, S: ReadAt + Sync>(
    rt: &T,
    alloc: Global,
    options: &TopOptions,
    rows: &RowOptions,
    records: SourceRecords<'_, S>,
) -> Result<Vec<u8>, ToolError>
    ensures rows { IfOk result (λ text. PrintsTop rows.now options.now.n
        (sources_known S.bytes records.entry) text.items) }
    ensures still { OnOk result (All S.still records.entry.sources.now) }
    ensures refused { IfErr result
        (TopFilesRefused options.now (sources_known S.bytes records.entry)) }
{
    if !in_range(options.workers, MAX_WORKERS) {
        return Err(ToolError::BadWorkers);
    }
    match top_of_sources(rt, alloc, options, records) {
        Ok((total, keys)) => Ok(printed_text(alloc, total, rows, &keys)?),
        Err(fault) => Err(fault),
    }
}
