//! The calls that are timed.

ghost use Rattle.std.specs.Prelude.{◌≡◌, length, sum, Ok, IfOk};

use crate::fault::BenchFault;
use heavy::read_stream;
use hh_counters::{BucketSaving, Monitor, SpaceSaving, Summary};
use hh_countmin::{Family, Table};
use hh_saved::{Saved, read, write};
use hh_stream::{Cutting, Item, Stream};
use std::alloc::Global;
use std::time::Instant;

/// How many pieces a stream is cut into where merges are timed.
const PIECES: usize = 8;

/// A call that can be timed.
#[derive(Clone, Copy)]
pub enum Call {
    /// `read_stream`, for each record.
    Read,
    /// `Summary::of_items`, for each item.
    OfItems,
    /// `Summary::merge`, for each merge of the summaries of eight pieces.
    Merge,
    /// `SpaceSaving::add`, for each item.
    SpaceSaving,
    /// `BucketSaving::add`, for each item.
    BucketSaving,
    /// `Table::add` with 4 rows of 1,024 cells, for each item.
    Table,
    /// `hh_saved::write` of the items' summary, for each counter.
    Save,
    /// `hh_saved::read` of what that gives, for each counter.
    Load,
}

impl Call {
    /// The call with this name.
    pub fn of(name: &str) -> Option<Call> {
        match name {
            "read" => Some(Call::Read),
            "of_items" => Some(Call::OfItems),
            "merge" => Some(Call::Merge),
            "space_saving" => Some(Call::SpaceSaving),
            "bucket_saving" => Some(Call::BucketSaving),
            "table" => Some(Call::Table),
            "save" => Some(Call::Save),
            "load" => Some(Call::Load),
            _ => None,
        }
    }
}

/// What a call gave, or that it was refused.
pub(crate) fn given<T, E: Drop>(made: Result<T, E>) -> Result<T, BenchFault>
    ensures { IfOk result (λ value. made ≡ Ok value) }
{
    match made {
        Ok(value) => Ok(value),
        Err(_) => Err(BenchFault::Refused),
    }
}

/// Reads the clock.
pub(crate) fn now(rt: &HostRuntime) -> Result<Instant, BenchFault> {
    match Instant::now(rt) {
        Ok(now) => Ok(now),
        Err(_) => Err(BenchFault::Clock),
    }
}

/// Divides the nanoseconds since `start` by `steps`.
pub(crate) fn for_each(rt: &HostRuntime, start: Instant, steps: usize) -> Result<u128, BenchFault> {
    match start.elapsed(rt) {
        Ok(elapsed) => Ok(elapsed.as_nanos() / (steps.max(1) as u128)),
        Err(_) => Err(BenchFault::Clock),
    }
}

/// Adds all items.
fn monitor_all<M: Monitor>(monitor: &mut M, items: &[Item]) -> Result<(), BenchFault> {
    for item in items {
        given(monitor.add(item.key(), item.weight()))?;
    }
    Ok(())
}

/// Adds all items to a table of 4 rows of 1,024 cells.
fn tabulate(alloc: Global, items: &[Item]) -> Result<(), BenchFault> {
    let family = given(Family::draw(alloc, 0, 4))?;
    let mut table = given(Table::new(alloc, family, 1024))?;
    for item in items {
        given(table.add(item.key(), item.weight()))?;
    }
    Ok(())
}

/// The summaries of the stream's pieces.
fn summaries_of(
    alloc: Global,
    k: u64,
    stream: &Stream,
    cutting: &Cutting,
) -> Result<Vec<Summary>, BenchFault>
    requires { sum cutting.now ≡ length stream.now }
{
    let mut summaries = Vec::new(alloc);
    for i in 0..cutting.count() {
        let summary = summary_of(alloc, k, cutting.piece(stream, i))?;
        given(summaries.push(summary))?;
    }
    Ok(summaries)
}

fn summaries(alloc: Global, k: u64, stream: &Stream) -> Result<Vec<Summary>, BenchFault> {
    let cutting = given(Cutting::even(alloc, stream.len(), PIECES))?;
    summaries_of(alloc, k, stream, &cutting)
}

/// Merges all summaries into one.
fn merge_all(into: &mut Summary, summaries: &[Summary]) -> Result<(), BenchFault> {
    for summary in summaries {
        given(into.merge(summary))?;
    }
    Ok(())
}

/// The time of the merges of eight pieces' summaries into an empty one.
fn merges(rt: &HostRuntime, k: u64, stream: &Stream) -> Result<u128, BenchFault> {
    let mut whole = given(Summary::new(rt.alloc(), k))?;
    let summaries = summaries(rt.alloc(), k, stream)?;
    let start = now(rt)?;
    merge_all(&mut whole, &summaries)?;
    for_each(rt, start, PIECES)
}

/// The summary of the items.
fn summary_of(alloc: Global, k: u64, items: &[Item]) -> Result<Summary, BenchFault> {
    let mut monitor = given(BucketSaving::new(alloc, k))?;
    monitor_all(&mut monitor, items)?;
    given(monitor.into_summary())
}

/// The time of saving the items' summary, for each counter.
fn saves(rt: &HostRuntime, k: u64, items: &[Item]) -> Result<u128, BenchFault> {
    let summary = summary_of(rt.alloc(), k, items)?;
    let counters = summary.len();
    let saved = Saved::Counters(summary);
    let start = now(rt)?;
    let _bytes = given(write(rt.alloc(), &saved))?;
    for_each(rt, start, counters)
}

/// The items' saved summary, and how many counters it has.
fn saved_of(alloc: Global, k: u64, items: &[Item]) -> Result<(Vec<u8>, usize), BenchFault> {
    let summary = summary_of(alloc, k, items)?;
    let counters = summary.len();
    let bytes = given(write(alloc, &Saved::Counters(summary)))?;
    Ok((bytes, counters))
}

/// The time of reading the items' saved summary, for each counter.
fn loads(rt: &HostRuntime, k: u64, items: &[Item]) -> Result<u128, BenchFault> {
    let (bytes, counters) = saved_of(rt.alloc(), k, items)?;
    let start = now(rt)?;
    let _saved = given(read(rt.alloc(), &bytes))?;
    for_each(rt, start, counters)
}

/// Adds all items by the plain form of Space-Saving.
fn monitor_plainly(alloc: Global, k: u64, items: &[Item]) -> Result<(), BenchFault> {
    let mut monitor = given(SpaceSaving::new(alloc, k))?;
    monitor_all(&mut monitor, items)
}

/// Adds all items by the form with buckets.
fn monitor_in_buckets(alloc: Global, k: u64, items: &[Item]) -> Result<(), BenchFault> {
    let mut monitor = given(BucketSaving::new(alloc, k))?;
    monitor_all(&mut monitor, items)
}

/// Makes a call that takes items one by one; the others make their own.
fn take_items(alloc: Global, call: Call, k: u64, stream: &Stream) -> Result<(), BenchFault> {
    let items = stream.items();
    match call {
        Call::OfItems => {
            let _summary = given(Summary::of_items(alloc, k, items))?;
            Ok(())
        }
        Call::SpaceSaving => monitor_plainly(alloc, k, items),
        Call::BucketSaving => monitor_in_buckets(alloc, k, items),
        Call::Table => tabulate(alloc, items),
        Call::Read | Call::Merge | Call::Save | Call::Load => Ok(()),
    }
}

/// The time of a call on a stream, which was read since a start.
fn measured(
    rt: &HostRuntime,
    call: Call,
    k: u64,
    stream: &Stream,
    reading: Instant,
) -> Result<u128, BenchFault> {
    let items = stream.items();
    match call {
        Call::Read => for_each(rt, reading, items.len()),
        Call::Merge => merges(rt, k, stream),
        Call::Save => saves(rt, k, items),
        Call::Load => loads(rt, k, items),
        call => {
            let start = now(rt)?;
            take_items(rt.alloc(), call, k, stream)?;
            for_each(rt, start, items.len())
        }
    }
}

/// The time of a call on the stream of standard input, for each item, merge or counter, in
/// nanoseconds.
pub fn nanoseconds(rt: &HostRuntime, call: Call, k: u64) -> Result<u128, BenchFault> {
    let reading = now(rt)?;
    match read_stream(rt.alloc(), rt.stdin()) {
        Ok(stream) => measured(rt, call, k, &stream, reading),
        Err(_) => Err(BenchFault::Records),
    }
}
