//! The worked rows on the two passes, by two seats one after the other, whose gate hears the number
//! of the worker that does all pieces.

ghost use Rattle.std.specs.Prelude.{◌≡◌, length, sum};

use crate::fixtures::{assert_same, candidates_of, counter_of, four_items, plain_family};
use crate::meetings::Meeting;
use hh_counters::{Candidates, Summary};
use hh_pool::{Options, first_pass, second_pass};
use hh_shared::{SharedSums, SumSeat};
use hh_stream::{Cutting, Stream};
use std::process::Abort;

// The pieces that a seat has summarised, as "0: 2 counters, a 5 b 3 c 0; ".
fn shown(rt: &(impl Abort + AllocGlobal), found: &[(usize, Summary)]) -> String {
    let mut text = String::new(rt.alloc());
    for (number, summary) in found {
        write!(text, "{number}: {} counters,", summary.len()).expect(rt, "room");
        for byte in b'a'..=b'c' {
            let counter = counter_of(rt, summary, &[byte]);
            write!(text, " {} {counter}", char::from(byte)).expect(rt, "room");
        }
        text.push_str("; ").expect(rt, "room");
    }
    text
}

// The sums, once both seats are joined.
fn close_both(rt: &impl Abort, sums: SharedSums, mut one: SumSeat, other: SumSeat) -> Vec<u64>
    requires one { one.sums ≡ sums }
    requires other { other.sums ≡ sums }
{
    sums.join(&mut one, other);
    assert!(rt; sums.holds_all(&one));
    sums.close(one).expect(rt, "sums")
}

// What two seats find in the first pass, one after the other, and then the cells of both.
fn first_of_both(
    rt: &(impl Abort + AllocGlobal),
    stream: &Stream,
    cutting: &Cutting,
    gate: &Meeting,
) -> (String, String, Vec<u64>)
    requires same_len { sum cutting.now ≡ length stream.now }
{
    let alloc = rt.alloc();
    let family = plain_family(rt);
    let cells = (family.depth() * 4) as usize;
    let options = Options::new(2, 1, 3, 2, 4, family).expect(rt, "options");
    let (sums, mut one) = SharedSums::new(alloc, cutting.count(), cells).expect(rt, "sums");
    let other = sums.split(&mut one);
    let first = first_pass(alloc, &sums, one, stream, cutting, &options, gate, 5);
    let second = first_pass(alloc, &sums, other, stream, cutting, &options, gate, 1);
    let (one, found) = first.expect(rt, "a pass");
    let (other, none) = second.expect(rt, "a pass");
    (
        shown(rt, &found),
        shown(rt, &none),
        close_both(rt, sums, one, other),
    )
}

#[test]
fn first_of_two_seats_summarises_all_pieces(rt: HostRuntime) {
    let stream = four_items(&rt);
    let cutting = Cutting::even(rt.alloc(), stream.len(), 2).expect(&rt, "pieces");
    let gate = Meeting::new(6, 0, 0, 0);
    let (found, none, cells) = first_of_both(&rt, &stream, &cutting, &gate);
    assert_same(&rt, gate.first.heard(), (2 << 40, 0x0101));
    let expected = "0: 2 counters, a 5 b 3 c 0; 1: 2 counters, a 1 b 0 c 2; ";
    assert_same(&rt, found.as_str(), expected);
    assert_same(&rt, none.as_str(), "");
    assert_same(&rt, cells.as_slice(), [2, 0, 6, 3, 0, 2, 3, 6].as_slice());
}

// The counts of both seats, once each has run the second pass, one after the other.
fn second_of_both(
    rt: &(impl Abort + AllocGlobal),
    stream: &Stream,
    cutting: &Cutting,
    candidates: &Candidates,
    gate: &Meeting,
) -> Vec<u64>
    requires same_len { sum cutting.now ≡ length stream.now }
    requires two { length candidates.now ≡ 2 }
{
    let alloc = rt.alloc();
    let sums = SharedSums::new(alloc, cutting.count(), candidates.len());
    let (sums, mut one) = sums.expect(rt, "sums");
    let two = sums.split(&mut one);
    let one = second_pass(alloc, &sums, one, stream, cutting, candidates, gate, 6);
    let one = one.expect(rt, "a pass");
    let two = second_pass(alloc, &sums, two, stream, cutting, candidates, gate, 1);
    let two = two.expect(rt, "a pass");
    assert!(rt; !sums.holds_all(&two));
    close_both(rt, sums, one, two)
}

// The counts of the four items in two pieces.
fn second_of_two_pieces(rt: &(impl Abort + AllocGlobal), gate: &Meeting) -> Vec<u64> {
    let stream = four_items(rt);
    let cutting = Cutting::even(rt.alloc(), stream.len(), 2).expect(rt, "pieces");
    let candidates = candidates_of(rt);
    second_of_both(rt, &stream, &cutting, &candidates, gate)
}

#[test]
fn first_of_two_seats_counts_all_candidates(rt: HostRuntime) {
    let gate = Meeting::new(7, 0, 0, 0);
    let counts = second_of_two_pieces(&rt, &gate);
    assert_same(&rt, gate.second.heard(), (2 << 48, 0x0101));
    assert_same(&rt, counts.as_slice(), [6, 3].as_slice());
}
