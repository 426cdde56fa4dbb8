//! The streams, summaries, families and outcomes that the tests share, and what they show. Where
//! something can't be made, as for want of memory, the test fails.

ghost use Rattle.std.specs.Prelude.{◌≡◌, ◌≤◌, length};

use hh_counters::{Candidates, Heavy, Summary};
use hh_countmin::{Family, Table};
use hh_pool::{Gate, Options, Outcome, Plan, analyse};
use hh_stream::{Cutting, Key, Stream};
use std::fmt::Debug;
use std::process::Abort;
use std::sync::Wait;
use std::thread::Threads;

// Keys of one letter, with their weights.
pub(crate) const FOUR_RECORDS: [(u8, u64); 4] = [(b'a', 5), (b'b', 3), (b'c', 2), (b'a', 1)];

// Numbers k, and whether they are refused.
pub(crate) const KS: [(u64, bool); 4] = [(0, true), (1, false), (65_535, false), (65_536, true)];

// Asserts that both are the same. Each assertion makes the proof of its function longer, and a call
// hardly does.
pub(crate) fn assert_same<T: Debug + PartialEq + Drop>(rt: &impl Abort, found: T, expected: T) {
    assert_eq!(rt; found, expected);
}

pub(crate) fn key_of(rt: &(impl Abort + AllocGlobal), bytes: &[u8]) -> Key {
    Key::new(rt.alloc(), bytes).expect(rt, "a key")
}

// The stream of these items.
pub(crate) fn stream_of(rt: &(impl Abort + AllocGlobal), items: &[(u8, u64)]) -> Stream {
    let mut stream = Stream::new(rt.alloc());
    for (letter, weight) in items {
        let key = key_of(rt, &[*letter]);
        stream.push(key, *weight).expect(rt, "an item");
    }
    stream
}

// The summary of these items.
pub(crate) fn summary_of(rt: &(impl Abort + AllocGlobal), k: u64, items: &[(u8, u64)]) -> Summary {
    let stream = stream_of(rt, items);
    Summary::of_items(rt.alloc(), k, stream.items()).expect(rt, "a summary")
}

// Writes a key and its counter, as "a 4 ".
pub(crate) fn show_counter(rt: &impl Abort, text: &mut String, key: &[u8], counter: u64) {
    let key = str::from_utf8(key).expect(rt, "a text");
    write!(text, "{key} {counter} ").expect(rt, "room");
}

// The summary as text, as "a 4 b 1 of 11, slack 2".
pub(crate) fn shown(rt: &(impl Abort + AllocGlobal), summary: &Summary) -> String {
    let mut text = String::new(rt.alloc());
    for i in 0..summary.len() {
        let (key, counter) = summary.entry(i);
        show_counter(rt, &mut text, key.bytes(), counter);
    }
    write!(text, "of {}, slack {}", summary.total(), summary.slack()).expect(rt, "room");
    text
}

// Asserts that the summary shows this text.
pub(crate) fn assert_shows(rt: &(impl Abort + AllocGlobal), summary: &Summary, expected: &str) {
    assert_same(rt, shown(rt, summary).as_str(), expected);
}

// a has 6, b has 3 and c has 2.
pub(crate) fn four_items(rt: &(impl Abort + AllocGlobal)) -> Stream {
    stream_of(rt, &FOUR_RECORDS)
}

// The candidates a and b of the four items.
pub(crate) fn candidates_of(rt: &(impl Abort + AllocGlobal)) -> Candidates
    ensures { length result ≡ 2 }
{
    let summary = summary_of(rt, 2, &FOUR_RECORDS);
    let candidates = Candidates::of(rt.alloc(), &summary).expect(rt, "candidates");
    assert!(rt; candidates.len() == 2);
    candidates
}

// The family by which a and e fall on cells 2 and 3 of a row of four, b on 3 and 2, c on 0 and 1.
pub(crate) fn plain_family(rt: &(impl Abort + AllocGlobal)) -> Family {
    Family::from_parts(rt.alloc(), 256, &[(1, 0), (3, 1)]).expect(rt, "a family")
}

// With the threshold 1/(k + 1).
pub(crate) fn options(rt: &(impl Abort + AllocGlobal), k: u64, workers: u64) -> Options
    requires { k ≤ 65535 }
{
    let family = plain_family(rt);
    Options::new(k, 1, k + 1, workers, 4, family).expect(rt, "options")
}

// The outcome of an analysis of the stream in as many even pieces as the plan has.
pub(crate) fn analyse_stream<R: AllocGlobal + Threads + Wait + Abort + Sync, G: Gate + Sync>(
    rt: &R,
    stream: &Stream,
    plan: &Plan,
    options: &Options,
    gate: &G,
) -> Outcome {
    let cutting = Cutting::even(rt.alloc(), stream.len(), plan.count()).expect(rt, "pieces");
    let outcome = analyse(rt, rt.alloc(), stream, &cutting, plan, options, gate);
    outcome.expect(rt, "an outcome")
}

// The counter of this key.
pub(crate) fn counter_of(rt: &(impl Abort + AllocGlobal), summary: &Summary, key: &[u8]) -> u64 {
    summary.get(&key_of(rt, key))
}

pub(crate) fn has_cells(table: &Table) -> bool {
    table.total() == 11 && table.cells() == [2, 0, 6, 3, 0, 2, 3, 6].as_slice()
}

pub(crate) fn lists_a(heavy: &[Heavy]) -> bool {
    if heavy.len() != 1 {
        return false;
    }
    let row = &heavy[0];
    row.key.bytes() == b"a".as_slice() && row.weight == 6
}

// Whether the summary is that of the four items for k = 2.
pub(crate) fn has_counters(rt: &(impl Abort + AllocGlobal), summary: &Summary) -> bool {
    let a = counter_of(rt, summary, b"a");
    let b = counter_of(rt, summary, b"b");
    (summary.len(), a, b) == (2, 4, 1)
}

// Whether the outcome is that of the four items for k = 2.
pub(crate) fn is_of_four_items(rt: &(impl Abort + AllocGlobal), outcome: &Outcome) -> bool {
    has_counters(rt, &outcome.summary) && has_cells(&outcome.table) && lists_a(&outcome.heavy)
}

// Whether the four items have the outcome that they always have by these workers, plan and gate.
pub(crate) fn is_as_ever<R: AllocGlobal + Threads + Wait + Abort + Sync, G: Gate + Sync>(
    rt: &R,
    plan: &Plan,
    workers: u64,
    gate: &G,
) -> bool {
    let options = options(rt, 2, workers);
    let outcome = analyse_stream(rt, &four_items(rt), plan, &options, gate);
    is_of_four_items(rt, &outcome)
}
