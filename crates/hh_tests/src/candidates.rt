//! The candidates a and b of the four records.

ghost use Rattle.std.specs.Prelude.{◌≡◌, length};
ghost use Rattle.hh_summaries.specs.Report.{IsShare};

use crate::fixtures::{assert_same, candidates_of, four_items, key_of, show_counter};
use hh_counters::Candidates;
use hh_stream::Stream;
use std::process::Abort;

fn place_of(rt: &(impl Abort + AllocGlobal), candidates: &Candidates, letter: u8) -> Option<usize> {
    candidates.place(&key_of(rt, &[letter]))
}

const PLACES: [(u8, Option<usize>); 3] = [(b'a', Some(0)), (b'b', Some(1)), (b'c', None)];

#[test]
fn candidates_have_places(rt: HostRuntime) {
    let candidates = candidates_of(&rt);
    for (letter, place) in &PLACES {
        assert_same(&rt, place_of(&rt, &candidates, *letter), *place);
    }
}

// The weights of two candidates in the stream.
fn weights_of(candidates: &Candidates, stream: &Stream) -> [u64; 2]
    requires { length candidates.now ≡ 2 }
{
    let mut numbers = [0, 0];
    candidates.count_piece(stream.items(), &mut numbers);
    numbers
}

#[test]
fn candidates_are_counted(rt: HostRuntime) {
    let stream = four_items(&rt);
    assert_same(&rt, weights_of(&candidates_of(&rt), &stream), [6, 3]);
}

// The rows that are selected of these numbers of two candidates, those above p/q of 11, as
// "a 6 b 6 ".
fn selected(
    rt: &(impl Abort + AllocGlobal),
    candidates: &Candidates,
    numbers: &[u64; 2],
    p: u64,
    q: u64,
) -> String
    requires two { length candidates.now ≡ 2 }
    requires share { IsShare p q }
{
    let mut text = String::new(rt.alloc());
    for row in &candidates.select(numbers, 11, p, q).expect(rt, "rows") {
        show_counter(rt, &mut text, row.key.bytes(), row.weight);
    }
    text
}

// Those above 1/q of 11.
fn selected_above(rt: &(impl Abort + AllocGlobal), numbers: &[u64; 2], q: u64) -> String {
    assert!(rt; 1 <= q && q <= 4);
    selected(rt, &candidates_of(rt), numbers, 1, q)
}

// Numbers of both, q, and the rows that are selected.
const ABOVE: [([u64; 2], u64, &str); 4] = [
    ([6, 3], 3, "a 6 "),
    ([6, 6], 3, "a 6 b 6 "),
    ([4, 7], 3, "b 7 a 4 "),
    ([6, 3], 4, "a 6 b 3 "),
];

#[test]
fn report_lists_candidates_above_a_share(rt: HostRuntime) {
    for (numbers, q, rows) in &ABOVE {
        let text = selected_above(&rt, numbers, *q);
        assert_same(&rt, text.as_str(), rows);
    }
}
