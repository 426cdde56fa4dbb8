//! The forms of Space-Saving on small streams, and side by side on a longer one.

use crate::fixtures::{
    FOUR_RECORDS, KS, assert_same, assert_shows, key_of, show_counter, shown, stream_of,
};
use hh_counters::{BucketSaving, Monitor, SpaceSaving, Summary, SummaryFault, monitored_summary};
use hh_stream::{Item, Key, Stream};
use std::fmt::Debug;
use std::process::Abort;

// The plain form.
fn plain(rt: &(impl Abort + AllocGlobal), k: u64) -> SpaceSaving {
    SpaceSaving::new(rt.alloc(), k).expect(rt, "counters")
}

// The form with buckets.
fn buckets(rt: &(impl Abort + AllocGlobal), k: u64) -> BucketSaving {
    BucketSaving::new(rt.alloc(), k).expect(rt, "buckets")
}

fn add<M: Monitor>(rt: &impl Abort, monitor: &mut M, item: &Item) {
    monitor.add(item.key(), item.weight()).expect(rt, "an item");
}

// Adds the items.
fn add_all<M: Monitor>(rt: &impl Abort, monitor: &mut M, items: &[Item]) {
    for item in items {
        add(rt, monitor, item);
    }
}

// The counters of a to d as text, as "a 6 b 3 of 9, least 0".
fn counters<M: Monitor>(rt: &(impl Abort + AllocGlobal), monitor: &M) -> String {
    let mut text = String::new(rt.alloc());
    for byte in b'a'..=b'd' {
        let counter = monitor.get(&key_of(rt, &[byte]));
        if counter > 0 {
            show_counter(rt, &mut text, &[byte], counter);
        }
    }
    let (total, least) = (monitor.total(), monitor.least());
    write!(text, "of {total}, least {least}").expect(rt, "room");
    text
}

// The summary as text.
fn translated<M: Monitor>(rt: &(impl Abort + AllocGlobal), monitor: M) -> String {
    let summary = monitor.into_summary().ok().expect(rt, "a summary");
    shown(rt, &summary)
}

// The counters after these items, and then the summary.
fn run<M: Monitor>(rt: &(impl Abort + AllocGlobal), mut monitor: M, items: &[(u8, u64)]) -> String {
    add_all(rt, &mut monitor, stream_of(rt, items).items());
    let mut text = counters(rt, &monitor);
    write!(text, " to {}", translated(rt, monitor)).expect(rt, "room");
    text
}

// Asserts what each form counts and translates of these items.
fn assert_forms(rt: &(impl Abort + AllocGlobal), k: u64, items: &[(u8, u64)], expected: &str) {
    assert_same(rt, run(rt, plain(rt, k), items).as_str(), expected);
    assert_same(rt, run(rt, buckets(rt, k), items).as_str(), expected);
}

// A number k, items, and what is counted and translated of them.
const SMALL: [(u64, &[(u8, u64)], &str); 5] = [
    (
        2,
        &FOUR_RECORDS,
        "a 6 b 3 c 2 of 11, least 2 to a 4 b 1 of 11, slack 2",
    ),
    (
        2,
        &[(b'a', 5), (b'b', 3), (b'c', 2), (b'a', 1), (b'd', 4)],
        "a 6 b 3 d 6 of 15, least 3 to a 3 d 3 of 15, slack 3",
    ),
    (
        2,
        &[(b'a', 5), (b'b', 3)],
        "a 5 b 3 of 8, least 0 to a 5 b 3 of 8, slack 0",
    ),
    (
        1,
        &[(b'b', 1), (b'a', 1), (b'c', 1)],
        "b 1 c 2 of 3, least 1 to c 1 of 3, slack 1",
    ),
    (
        1,
        &[(b'a', 1), (b'b', 2), (b'a', 3), (b'c', 1)],
        "a 4 c 3 of 7, least 3 to a 1 of 7, slack 3",
    ),
];

#[test]
fn each_form_counts_small_streams(rt: HostRuntime) {
    for (k, items, expected) in &SMALL {
        assert_forms(&rt, *k, items, expected);
    }
}

#[test]
fn k_is_1_to_65535(rt: HostRuntime) {
    for (k, refused) in &KS {
        let plain = SpaceSaving::new(rt.alloc(), *k).err();
        assert_same(&rt, plain, refused.then_some(SummaryFault::BadK));
        let buckets = BucketSaving::new(rt.alloc(), *k).err();
        assert_same(&rt, buckets, refused.then_some(SummaryFault::BadK));
    }
}

// The one-byte keys 0 to 40.
fn keys_of_one_byte(rt: &(impl Abort + AllocGlobal)) -> Vec<Key> {
    let mut keys = Vec::new(rt.alloc());
    for byte in 0..41u8 {
        keys.push(key_of(rt, &[byte])).expect(rt, "room");
    }
    keys
}

// 10,000 items on 21 of these keys.
fn long_stream(rt: &(impl Abort + AllocGlobal)) -> Stream {
    let mut stream = Stream::new(rt.alloc());
    for i in 0..10_000u64 {
        let key = key_of(rt, &[(i * i % 41) as u8]);
        stream.push(key, 1 + i % 7).expect(rt, "an item");
    }
    stream
}

// Whether both have the same total, length, least counter and counters of these keys.
fn agree(plain: &SpaceSaving, buckets: &BucketSaving, keys: &[Key]) -> bool {
    plain.total() == buckets.total()
        && plain.len() == buckets.len()
        && plain.least() == buckets.least()
        && keys.iter().all(|key| plain.get(key) == buckets.get(key))
}

// Asserts that both forms agree after each of the items.
fn agree_after_each(rt: &(impl Abort + AllocGlobal), items: &[Item], keys: &[Key]) {
    let mut plain = plain(rt, 10);
    let mut buckets = buckets(rt, 10);
    for item in items {
        add(rt, &mut plain, item);
        add(rt, &mut buckets, item);
        assert_same(rt, agree(&plain, &buckets, keys), true);
    }
}

#[test]
fn buckets_agree_after_each_of_10000_items(rt: HostRuntime) {
    let stream = long_stream(&rt);
    let keys = keys_of_one_byte(&rt);
    agree_after_each(&rt, stream.items(), &keys);
}

// The summary of the 10,000 items, worked out apart: the keys 2, 8, 10, 18, 21, 25, 36, 37, 39, 40.
const LONG_SUMMARY: &str =
    "\u{2} 6 \u{8} 2 \u{a} 5 \u{12} 4 \u{15} 2 \u{19} 4 $ 3 % 6 ' 4 ( 6 of 39994, slack 3632";

// Asserts that the summary is that one.
fn assert_long<E: Debug + Drop>(rt: &(impl Abort + AllocGlobal), made: Result<Summary, E>) {
    assert_shows(rt, &made.expect(rt, "a summary"), LONG_SUMMARY);
}

// By the plain form.
fn plain_is_long(rt: &(impl Abort + AllocGlobal), stream: &Stream) {
    let plain = SpaceSaving::new(rt.alloc(), 10).expect(rt, "counters");
    assert_long(rt, monitored_summary(plain, stream.items()));
}

// By the form with buckets.
fn buckets_are_long(rt: &(impl Abort + AllocGlobal), stream: &Stream) {
    let buckets = BucketSaving::new(rt.alloc(), 10).expect(rt, "buckets");
    assert_long(rt, monitored_summary(buckets, stream.items()));
}

#[test]
fn each_form_translates_10000_items(rt: HostRuntime) {
    let stream = long_stream(&rt);
    assert_long(&rt, Summary::of_items(rt.alloc(), 10, stream.items()));
    plain_is_long(&rt, &stream);
    buckets_are_long(&rt, &stream);
}
