//! The stages of a report by one thread, each but the first over a text in memory.

ghost use Rattle.std.specs.Prelude.{◌≡◌, true, IfOk};
ghost use Rattle.hh_stream.specs.Ranges.{in_range};
ghost use Rattle.hh_summaries.specs.Counters.{max_k};
ghost use Rattle.hh_tally.specs.Tallies.{room_for};

use crate::calls::{for_each, given, now};
use crate::fault::BenchFault;
use crate::total::Total;
use hh_counters::{Candidates, Counts};
use hh_pieces::{Records, read_records};
use hh_records::{Column, Layout, gather_in_turn};
use hh_stream::{KeyHash, TakeItems, in_range};
use hh_summaries::MAX_K;
use hh_tally::laws::tallies_bound_weights;
use hh_tally::{Room, Tally};
use std::alloc::Global;
use std::io::Read;

/// A stage of a report.
#[derive(Clone, Copy)]
pub enum Stage {
    /// Reads the bytes, and does nothing with them.
    Bytes,
    /// Finds each record and its key.
    Scan,
    /// Finds each record and its key, and reads its weight.
    Number,
    /// Does that, and adds the item to a tally with room for k counters.
    Tally,
    /// Does that, and counts the weights of the keys that can be heavy by that tally.
    Count,
}

impl Stage {
    /// The stage with this name.
    pub fn of(name: &str) -> Option<Stage> {
        match name {
            "bytes" => Some(Stage::Bytes),
            "scan" => Some(Stage::Scan),
            "number" => Some(Stage::Number),
            "tally" => Some(Stage::Tally),
            "count" => Some(Stage::Count),
            _ => None,
        }
    }
}

/// Gives the records of `text`. If they have no weights, each weighs 1.
fn records_of(alloc: Global, text: &[u8], has_weights: bool) -> Result<Records<&[u8]>, BenchFault> {
    let mut layout = Layout::plain(alloc);
    if !has_weights {
        given(layout.key.push(Column::Number(1)))?;
    }
    Ok(Records {
        layout,
        first: text,
        others: Vec::new(alloc),
    })
}

/// Reads the records of `text` into `taker`, which has taken nothing.
fn read_text<T: TakeItems>(
    alloc: Global,
    text: &[u8],
    has_weights: bool,
    taker: T,
) -> Result<(), BenchFault>
    requires { T.weight_taken taker ≡ 0 }
{
    let records = records_of(alloc, text, has_weights)?;
    let _taken = given(read_records(alloc, records, taker))?;
    Ok(())
}

/// Makes the tally of `text`, with room for `k` counters.
fn tally_of(alloc: Global, text: &[u8], k: u64) -> Result<Tally, BenchFault>
    requires { in_range k max_k ≡ true }
    ensures { IfOk result (λ tally. tally.room ≡ room_for k) }
{
    tallies_bound_weights();
    let tally = given(Tally::new(alloc, Room::for_counters(k), KeyHash::fixed()))?;
    let records = records_of(alloc, text, true)?;
    given(gather_in_turn(alloc, tally, records))
}

/// Gives the keys of `text` that can weigh more than 1/(k + 1) of its total, as its tally tells.
fn candidates_of(alloc: Global, text: &[u8], k: u64) -> Result<Candidates, BenchFault>
    requires { in_range k max_k ≡ true }
{
    let tally = tally_of(alloc, text, k)?;
    let contenders = given(tally.contenders(alloc, 1, k + 1))?;
    given(Candidates::of_entries(alloc, &contenders, KeyHash::fixed()))
}

/// Reads standard input to its end, 64 KiB at once.
fn read_bytes(rt: &HostRuntime) -> Result<(), BenchFault> {
    let mut input = rt.stdin();
    let mut buffer = given(vec![in rt.alloc(); 0u8; 65_536])?;
    for _ in 0..u64::MAX {
        if given(input.read(&mut buffer))? == 0 {
            break;
        }
    }
    Ok(())
}

/// Runs a `stage` over `text`, with candidates for `Count`.
fn run(
    alloc: Global,
    text: &[u8],
    stage: Stage,
    k: u64,
    candidates: &Candidates,
) -> Result<(), BenchFault>
    requires { in_range k max_k ≡ true }
{
    match stage {
        Stage::Bytes => Ok(()),
        Stage::Scan => read_text(alloc, text, false, Total::new()),
        Stage::Number => read_text(alloc, text, true, Total::new()),
        Stage::Tally => {
            let _tally = tally_of(alloc, text, k)?;
            Ok(())
        }
        Stage::Count => read_text(alloc, text, true, given(Counts::new(alloc, candidates))?),
    }
}

/// Measures a `stage` over standard input, whose text is read before, but for `Bytes`. It gives the
/// time that all records take, in nanoseconds.
pub fn stage_time(rt: &HostRuntime, stage: Stage, k: u64) -> Result<u128, BenchFault> {
    if !in_range(k, MAX_K) {
        return Err(BenchFault::Usage);
    }
    if matches!(stage, Stage::Bytes) {
        let start = now(rt)?;
        read_bytes(rt)?;
        return for_each(rt, start, 1);
    }
    let alloc = rt.alloc();
    let mut text = Vec::new(alloc);
    given(rt.stdin().read_to_end(&mut text))?;
    let candidates = candidates_of(alloc, &text, k)?;
    let start = now(rt)?;
    run(alloc, &text, stage, k, &candidates)?;
    for_each(rt, start, 1)
}
