//! A report of files, of which no item is kept.

ghost use Rattle.std.specs.Prelude.{◌≡◌, ◌≤◌, ◌+◌, ◌*◌, ◌/◌, All, length, true};
ghost use Rattle.std.specs.Prelude.{IfOk, IfErr, IfSome, OnOk, Err};
ghost use Rattle.std.specs.List.Sorted.{IsStrictlySortedBy};
ghost use Rattle.std.specs.Map.{keys_of};
ghost use Rattle.hh_summaries.specs.Counters.{max_k};
ghost use Rattle.hh_summaries.specs.Report.{IsShare};
ghost use Rattle.hh_stream.specs.Ranges.{in_range};
ghost use Rattle.hh_stream.specs.Weights.{key_cmp};
ghost use Rattle.hh_pieces.specs.Sources.{sources_known};
ghost use Rattle.hh_records.specs.Refusals.{RecordsRefused};
ghost use Rattle.hh_files.specs.FilePasses.{TalliesRecords, WeighsRecords};
ghost use Rattle.hh_files.specs.Report.{AreOptions, FindsKeys, PrintsFileRows};
ghost use Rattle.hh_files.specs.Report.{StartRefused, bad_option};

use crate::by_plan::prepare;
use crate::crew::Crew;
use crate::file_passes::{tally_of_sources, weights_in};
use hh_counters::{Candidates, Heavy};
use hh_faults::ToolError;
use hh_pieces::{ReadAt, SourceRecords};
use hh_rows::{ReportOptions, RowOptions, printed_text};
use hh_stream::{Key, TakeItems};
use hh_tally::{Room, Tally};
use std::alloc::Global;
use std::sync::Wait;
use std::thread::Threads;

/// Finds the weights of the keys of `contenders` in `records`, whose tally this is: those of which
/// it isn't sure are counted, in another pass.
fn weights_of<T: Threads + Wait + Sync, S: ReadAt + Sync>(
    crew: &Crew<'_, T>,
    alloc: Global,
    tally: &Tally,
    contenders: &[(Key, u64)],
    records: SourceRecords<'_, S>,
) -> Result<Vec<u64>, ToolError>
    requires rising { IsStrictlySortedBy key_cmp (keys_of contenders.now) }
    requires tally { TalliesRecords tally.now.room (sources_known S.bytes records) tally.now }
    requires still { All S.still records.sources.now }
    ensures count { IfOk result (λ weights. length weights.items ≡ length contenders.now) }
    ensures weights { IfOk result (λ weights. WeighsRecords
        (sources_known S.bytes records.entry) (keys_of contenders.now) weights.items) }
    ensures still { OnOk result (All S.still records.entry.sources.now) }
    ensures refused { IfErr result (RecordsRefused (sources_known S.bytes records.entry)) }
{
    let unsure = tally.unsure(alloc, contenders)?;
    let candidates = Candidates::of_entries(alloc, &unsure, records.layout.hash)?;
    let counted = weights_in(crew, alloc, tally.total(), &candidates, records)?;
    Ok(tally.weights(alloc, contenders, &counted)?)
}

/// Finds the keys of `records`, whose tally this is, that weigh more than p/q of the total.
fn heavy_by<T: Threads + Wait + Sync, S: ReadAt + Sync>(
    crew: &Crew<'_, T>,
    alloc: Global,
    tally: &Tally,
    p: u64,
    q: u64,
    records: SourceRecords<'_, S>,
) -> Result<Vec<Heavy>, ToolError>
    requires share { IsShare p q }
    requires enough { q ≤ p * (tally.now.room.few / 2) }
    requires tally { TalliesRecords tally.now.room (sources_known S.bytes records) tally.now }
    requires still { All S.still records.sources.now }
    ensures keys { IfOk result (λ keys. FindsKeys (sources_known S.bytes records.entry) p q
        tally.now.total keys.items) }
    ensures still { OnOk result (All S.still records.entry.sources.now) }
    ensures refused { IfErr result (RecordsRefused (sources_known S.bytes records.entry)) }
{
    let contenders = tally.contenders(alloc, p, q)?;
    let weights = weights_of(crew, alloc, tally, &contenders, records)?;
    let candidates = Candidates::of_entries(alloc, &contenders, records.layout.hash)?;
    Ok(candidates.select(&weights, tally.total(), p, q)?)
}

/// Finds the total of `records` and the keys that weigh more than p/q of it, by a tally with room
/// for `k` counters.
fn keys_of_sources<T: Threads + Wait + Sync, S: ReadAt + Sync>(
    crew: &Crew<'_, T>,
    alloc: Global,
    records: SourceRecords<'_, S>,
    k: u64,
    p: u64,
    q: u64,
) -> Result<(u64, Vec<Heavy>), ToolError>
    requires k { in_range k max_k ≡ true }
    requires share { IsShare p q }
    requires enough { q ≤ p * (k + 1) }
    ensures keys { IfOk result (λ keys. FindsKeys (sources_known S.bytes records.entry) p q
        keys.0 keys.1.items) }
    ensures still { OnOk result (All S.still records.entry.sources.now) }
    ensures refused { IfErr result (RecordsRefused (sources_known S.bytes records.entry)) }
{
    let room = Room::for_counters(k);
    let tally = tally_of_sources(crew, alloc, room, records)?;
    let keys = heavy_by(crew, alloc, &tally, p, q, records)?;
    Ok((tally.total(), keys))
}

/// Makes the rows of the report of files of any size, as [`report_rows`](crate::report_rows)
/// does, or of other bytes that can be read at any place, such as those of a pipe that were kept.
/// No item is kept: workers read the files in pieces, through a buffer each, and tally their items
/// (Misra and Gries 1982, in batches as Anderson et al. 2017). If the keys are few, one pass is
/// enough; else a second one counts the keys that can be heavy, but of whose weight the tally isn't
/// sure. If a piece can't be read by itself, one thread reads all files, so that an error has the
/// number of its record.
///
/// Where the bytes of all files are known, the report is that of their records, one file after the
/// other. Where a file was changed while it was read, the error is [`ToolError::ReadFault`]; one
/// that has only grown wasn't ([`GrowingFile`](hh_pieces::GrowingFile)). So it is where the total
/// weights of two readings differ all the same.
pub fn report_files<T: Threads + Wait + Sync, F: ReadAt + Sync>(
    rt: &T,
    alloc: Global,
    options: &ReportOptions,
    rows: &RowOptions,
    records: SourceRecords<'_, F>,
) -> Result<Vec<u8>, ToolError>
    ensures rows { IfOk result (λ text. AreOptions options.now
        × PrintsFileRows rows.now options.now (sources_known F.bytes records.entry) text.items) }
    ensures still { OnOk result (All F.still records.entry.sources.now) }
    ensures refused { IfErr result
        (StartRefused options.now (sources_known F.bytes records.entry)) }
    ensures bad_option { IfSome (bad_option options.now) (λ fault. result ≡ Err fault) }
{
    let prepared = match prepare(alloc, options) {
        Ok(prepared) => prepared,
        Err(fault) => return Err(fault),
    };
    let crew = Crew {
        rt,
        workers: options.workers,
    };
    match keys_of_sources(&crew, alloc, records, options.k, prepared.p, prepared.q) {
        Ok((total, keys)) => Ok(printed_text(alloc, total, rows, &keys)?),
        Err(fault) => Err(fault),
    }
}
