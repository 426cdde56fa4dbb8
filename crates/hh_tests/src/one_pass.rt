//! One pass over the four items in two pieces, by two workers.

use crate::fixtures::{
    assert_same, candidates_of, four_items, has_cells, has_counters, plain_family,
};
use hh_counters::{Counts, Summary};
use hh_countmin::Table;
use hh_pool::CutStream;
use hh_stream::{Cutting, KeyHash, Sketch};
use hh_tally::{Room, Tally};
use hh_workers::gather_pieces;
use std::process::Abort;
use std::sync::Wait;
use std::thread::Threads;

// What is gathered of the items, with the settings of `start`.
fn gathered<R: AllocGlobal + Threads + Wait + Abort + Sync, T: Sketch>(rt: &R, start: &T) -> T {
    let stream = four_items(rt);
    let cutting = Cutting::even(rt.alloc(), stream.len(), 2).expect(rt, "pieces");
    let pieces = CutStream::new(&stream, &cutting);
    gather_pieces(rt, rt.alloc(), &pieces, start, 2).expect(rt, "a sketch")
}

// What the candidates a and b weigh, and the total.
fn counted<R: AllocGlobal + Threads + Wait + Abort + Sync>(rt: &R) -> (Vec<u64>, u64) {
    let candidates = candidates_of(rt);
    let start = Counts::new(rt.alloc(), &candidates).expect(rt, "counts");
    let counts = gathered(rt, &start);
    let total = counts.total();
    (counts.into_weights(), total)
}

#[test]
fn candidates_are_counted(rt: HostRuntime) {
    let (weights, total) = counted(&rt);
    assert_same(&rt, weights.as_slice(), [6, 3].as_slice());
    assert_same(&rt, total, 11);
}

// The table of the items.
fn tabulated<R: AllocGlobal + Threads + Wait + Abort + Sync>(rt: &R) -> Table {
    let start = Table::empty(rt.alloc(), plain_family(rt), 4).expect(rt, "a table");
    gathered(rt, &start)
}

#[test]
fn table_is_filled(rt: HostRuntime) {
    assert!(rt; has_cells(&tabulated(&rt)));
}

// The summary of the items' tally, with two counters.
fn summarised<R: AllocGlobal + Threads + Wait + Abort + Sync>(rt: &R) -> Summary {
    let room = Room::for_counters(2);
    let start = Tally::new(rt.alloc(), room, KeyHash::fixed()).expect(rt, "a tally");
    let tally = gathered(rt, &start);
    tally.into_summary(rt.alloc(), 2).expect(rt, "a summary")
}

#[test]
fn greatest_counters_are_kept(rt: HostRuntime) {
    assert!(rt; has_counters(&rt, &summarised(&rt)));
}
