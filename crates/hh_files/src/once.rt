//! A report of records that are read once, of which nothing is kept.

ghost use Rattle.std.specs.Prelude.{◌≡◌, ◌≤◌, ◌*◌, ◌/◌, List, IfOk, IfErr, IfSome, Err};
ghost use Rattle.hh_stream.specs.Weights.{Entry, total_of};
ghost use Rattle.hh_summaries.specs.Report.{IsShare, heavy};
ghost use Rattle.hh_tally.specs.Tallies.{AreBounds, IsRoom};
ghost use Rattle.hh_files.specs.Report.{AreKeysOf, AreOptions, PrintsRows, ReportsKeys};
ghost use Rattle.hh_files.specs.Report.{bad_option};
ghost use Rattle.hh_files.specs.OnceReports.{KeysRefused, OnceRefused, TallyRefused};

use crate::by_plan::prepare;
use hh_counters::{Candidates, Heavy};
use hh_faults::ToolError;
use hh_records::{ReadRecords, gather_in_turn};
use hh_rows::{ReportOptions, RowOptions, printed_text};
use hh_stream::{KeyHash, TakeItems};
use hh_tally::laws::tallies_bound_weights;
use hh_tally::{Room, Tally};
use hh_top::once_room;
use std::alloc::Global;

/// Finds the keys that weigh more than p/q of the total of the items that this tally is of, hashed
/// by `hash`. If there are keys that can, but of which the tally isn't sure, it refuses.
fn sure_keys(
    alloc: Global,
    tally: &Tally,
    p: u64,
    q: u64,
    hash: KeyHash,
) -> Result<Vec<Heavy>, ToolError>
    requires share { IsShare p q }
    requires enough { q ≤ p * (tally.now.room.few / 2) }
    ensures keys { IfOk result (λ keys. (xs : List Entry) → AreBounds tally.now xs
        → keys.items ≡ heavy xs p q) }
    ensures refused { IfErr result (TallyRefused p q tally.now) }
{
    let contenders = tally.contenders(alloc, p, q)?;
    let uncertain = tally.unsure(alloc, &contenders)?.len();
    if uncertain > 0 {
        return Err(ToolError::ReportUncertain {
            certain: (contenders.len() - uncertain) as u64,
            uncertain: uncertain as u64,
        });
    }
    let weights = tally.weights(alloc, &contenders, &[])?;
    let candidates = Candidates::of_entries(alloc, &contenders, hash)?;
    Ok(candidates.select(&weights, tally.total(), p, q)?)
}

/// Finds the total of `records`, and the keys that weigh more than p/q of it, by a tally with this
/// `room`, which they are read into once.
fn keys_once<R: ReadRecords>(
    alloc: Global,
    records: R,
    room: Room,
    p: u64,
    q: u64,
) -> Result<(u64, Vec<Heavy>), ToolError>
    requires room { IsRoom room }
    requires share { IsShare p q }
    requires enough { q ≤ p * (room.few / 2) }
    ensures keys { IfOk result (λ keys. AreKeysOf (R.known records) p q keys.0 keys.1.items) }
    ensures refused { IfErr result (KeysRefused room p q (R.known records)) }
{
    tallies_bound_weights();
    let hash = records.hash();
    let start = Tally::new(alloc, room, hash)?;
    let tally = gather_in_turn(alloc, start, records)?;
    let keys = sure_keys(alloc, &tally, p, q, hash)?;
    Ok((tally.total(), keys))
}

/// Tests `options`, and then finds the total of `records` and the keys that their report has.
fn reported_once<R: ReadRecords>(
    alloc: Global,
    options: &ReportOptions,
    memory: u64,
    records: R,
) -> Result<(u64, Vec<Heavy>), ToolError>
    ensures keys { IfOk result (λ keys. (xs : List Entry) × AreOptions options.now
        × ReportsKeys options.now (R.known records) xs keys.1.items
        × (keys.0 ≡ total_of xs)) }
    ensures refused { IfErr result (OnceRefused options.now memory (R.known records)) }
    ensures bad_option { IfSome (bad_option options.now) (λ fault. result ≡ Err fault) }
{
    match prepare(alloc, options) {
        Ok(prepared) => {
            let (p, q) = (prepared.p, prepared.q);
            keys_once(alloc, records, once_room(options.k, memory), p, q)
        }
        Err(fault) => Err(fault),
    }
}

/// Makes the rows of the report of `records`, which are read once, by one thread, and of which
/// nothing is kept. Their items are tallied by counters that take `memory` bytes, a few more or
/// less, 256,000 at the least.
///
/// The options are tested first, as by [`report_rows`](crate::report_rows), and then come the
/// records. If the tally isn't sure of the weight of a key that can be heavy, the error is
/// [`ToolError::ReportUncertain`]: with how many heavy keys it is sure of, and how many more can be
/// heavy. So it is where such a key comes only after counters were lowered; more memory may do.
pub fn report_once<R: ReadRecords>(
    alloc: Global,
    options: &ReportOptions,
    rows: &RowOptions,
    memory: u64,
    records: R,
) -> Result<Vec<u8>, ToolError>
    ensures rows { IfOk result (λ text. AreOptions options.now
        × PrintsRows rows.now options.now (R.known records) text.items) }
    ensures refused { IfErr result (OnceRefused options.now memory (R.known records)) }
    ensures bad_option { IfSome (bad_option options.now) (λ fault. result ≡ Err fault) }
{
    let (total, keys) = reported_once(alloc, options, memory, records)?;
    Ok(printed_text(alloc, total, rows, &keys)?)
}
