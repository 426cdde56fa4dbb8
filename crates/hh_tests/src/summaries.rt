//! Summaries of a few items.

ghost use Rattle.std.specs.Prelude.{◌<◌};

use crate::fixtures::{
    FOUR_RECORDS, KS, assert_same, assert_shows, four_items, key_of, shown, summary_of,
};
use hh_counters::{Summary, SummaryFault};
use hh_stream::{Item, Key, MAX_TOTAL};
use std::process::Abort;

// Items, and the summary that they leave for k = 2.
const LEFT: [(&[(u8, u64)], &str); 4] = [
    (&FOUR_RECORDS, "a 4 b 1 of 11, slack 2"),
    (&[(b'a', 1), (b'b', 1), (b'c', 1)], "of 3, slack 1"),
    (&[(b'a', 1), (b'b', 1), (b'b', 1)], "a 1 b 2 of 3, slack 0"),
    (
        &[(b'a', 5), (b'b', 3), (b'c', 2), (b'a', 1), (b'd', 4)],
        "a 3 d 3 of 15, slack 3",
    ),
];

#[test]
fn items_leave_their_counters(rt: HostRuntime) {
    for (items, expected) in &LEFT {
        assert_shows(&rt, &summary_of(&rt, 2, items), expected);
    }
}

// The summary of the items, added one by one.
fn added(rt: &(impl Abort + AllocGlobal), items: &[Item]) -> Summary {
    let mut summary = Summary::new(rt.alloc(), 2).expect(rt, "a summary");
    for item in items {
        summary.add(item.key(), item.weight()).expect(rt, "an item");
    }
    summary
}

#[test]
fn items_are_added_one_by_one(rt: HostRuntime) {
    let stream = four_items(&rt);
    let summary = added(&rt, stream.items());
    assert_shows(&rt, &summary, "a 4 b 1 of 11, slack 2");
}

#[test]
fn k_is_1_to_65535(rt: HostRuntime) {
    for (k, refused) in &KS {
        let fault = Summary::new(rt.alloc(), *k).err();
        assert_same(&rt, fault, refused.then_some(SummaryFault::BadK));
    }
}

// What the summary of the four records for k = 2 shows.
const FOUR: &str = "a 4 b 1 of 11, slack 2";

// What comes of one more item a with this weight.
fn raised(
    rt: &(impl Abort + AllocGlobal),
    summary: &mut Summary,
    weight: u64,
) -> Option<SummaryFault>
    requires { 0 < weight }
{
    summary.add(&key_of(rt, b"a"), weight).err()
}

#[test]
fn refused_summary_is_added_to_up_to_the_largest_total(rt: HostRuntime) {
    let mut summary = summary_of(&rt, 2, &FOUR_RECORDS);
    let fault = raised(&rt, &mut summary, MAX_TOTAL - 10);
    assert_same(&rt, fault, Some(SummaryFault::TotalTooLarge));
    assert_shows(&rt, &summary, FOUR);
    let fault = raised(&rt, &mut summary, MAX_TOTAL - 11);
    assert_same(&rt, fault, None);
    let full = "a 9223372036854775800 b 1 of 9223372036854775807, slack 2";
    assert_shows(&rt, &summary, full);
}

// The k and the items of another summary and what it shows; the fault of merging it into that of
// the four records for k = 2, and what this shows then.
const OTHERS: [(u64, &[(u8, u64)], &str, Option<SummaryFault>, &str); 4] = [
    (
        2,
        &[(b'b', 2), (b'c', 3)],
        "b 2 c 3 of 5, slack 0",
        None,
        "a 1 of 16, slack 5",
    ),
    (
        3,
        &[(b'b', 2), (b'c', 3)],
        "b 2 c 3 of 5, slack 0",
        Some(SummaryFault::DifferentK),
        FOUR,
    ),
    (
        2,
        &[(b'b', MAX_TOTAL - 10)],
        "b 9223372036854775797 of 9223372036854775797, slack 0",
        Some(SummaryFault::TotalTooLarge),
        FOUR,
    ),
    (
        3,
        &[(b'b', MAX_TOTAL - 10)],
        "b 9223372036854775797 of 9223372036854775797, slack 0",
        Some(SummaryFault::DifferentK),
        FOUR,
    ),
];

// The fault of merging the other summary into that of the four records, and what this shows then.
fn merged(rt: &(impl Abort + AllocGlobal), other: &Summary) -> (Option<SummaryFault>, String) {
    let mut summary = summary_of(rt, 2, &FOUR_RECORDS);
    let fault = summary.merge(other).err();
    (fault, shown(rt, &summary))
}

#[test]
fn summaries_merge_or_stay_as_they_were(rt: HostRuntime) {
    for (k, items, shows, fault, expected) in &OTHERS {
        let other = summary_of(&rt, *k, items);
        let (found, text) = merged(&rt, &other);
        assert_same(&rt, (found, text.as_str()), (*fault, *expected));
        assert_shows(&rt, &other, shows);
    }
}

// Keys with counters, in this order.
fn entries_of(rt: &(impl Abort + AllocGlobal), items: &[(u8, u64)]) -> Vec<(Key, u64)> {
    let mut entries = Vec::new(rt.alloc());
    for (letter, counter) in items {
        let key = key_of(rt, &[*letter]);
        entries.push((key, *counter)).expect(rt, "room");
    }
    entries
}

// Whether these counters fit a summary.
fn fits(rt: &(impl Abort + AllocGlobal), k: u64, total: u64, items: &[(u8, u64)]) -> bool {
    Summary::fits(k, total, &entries_of(rt, items))
}

// A number k, a total, counters, and whether these fit.
const FITTING: [(u64, u64, &[(u8, u64)], bool); 7] = [
    (2, 11, &[(b'a', 4), (b'b', 1)], true),
    (2, 11, &[(b'b', 1), (b'a', 4)], false),
    (2, 11, &[(b'a', 4), (b'b', 0)], false),
    (2, 11, &[(b'a', 4), (b'b', 1), (b'c', 1)], false),
    (2, 4, &[(b'a', 4), (b'b', 1)], false),
    (2, MAX_TOTAL + 1, &[(b'a', 4), (b'b', 1)], false),
    (0, 11, &[], false),
];

#[test]
fn entries_that_fit_a_summary(rt: HostRuntime) {
    for (k, total, items, expected) in &FITTING {
        assert_same(&rt, fits(&rt, *k, *total, items), *expected);
    }
}
