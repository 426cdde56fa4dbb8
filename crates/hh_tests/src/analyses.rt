//! The worked rows on analyses.

use crate::fixtures::{
    analyse_stream, assert_same, counter_of, four_items, is_as_ever, options, plain_family,
    stream_of,
};
use hh_pool::{OpenGate, Options, OptionsFault, Outcome, Plan, RunError, analyse};
use hh_stream::Cutting;
use std::process::Abort;
use std::sync::Wait;
use std::thread::Threads;

// Whether the outcome is the one that it always is, by both plans of `pieces` pieces.
fn each_plan_is_as_ever<R: AllocGlobal + Threads + Wait + Abort + Sync>(
    rt: &R,
    pieces: usize,
    workers: u64,
) -> bool {
    assert!(rt; 1 <= pieces && pieces <= 7);
    let chain = Plan::chain(rt.alloc(), pieces).expect(rt, "a plan");
    let balanced = Plan::balanced(rt.alloc(), pieces).expect(rt, "a plan");
    is_as_ever(rt, &chain, workers, &OpenGate) && is_as_ever(rt, &balanced, workers, &OpenGate)
}

#[test]
fn outcome_is_the_same_for_all_pieces_workers_and_plans(rt: HostRuntime) {
    for (pieces, workers) in &[(1, 1), (1, 4), (2, 1), (2, 4), (7, 1), (7, 4)] {
        let as_ever = each_plan_is_as_ever(&rt, *pieces, *workers);
        assert!(rt; as_ever, "{pieces} pieces, {workers} workers");
    }
}

// How many heavy keys there are, the counter of a, the total and the slack.
fn numbers_of(rt: &(impl Abort + AllocGlobal), outcome: &Outcome) -> (usize, u64, u64, u64) {
    let summary = &outcome.summary;
    let a = counter_of(rt, summary, b"a");
    (outcome.heavy.len(), a, summary.total(), summary.slack())
}

// The numbers of the items a 2, b 1 and c 1 for k = 1, a piece each, which this plan merges.
fn numbers_by<R: AllocGlobal + Threads + Wait + Abort + Sync>(
    rt: &R,
    plan: &[u8],
) -> (usize, u64, u64, u64) {
    let stream = stream_of(rt, &[(b'a', 2), (b'b', 1), (b'c', 1)]);
    let plan = Plan::parse(rt.alloc(), plan, 3).expect(rt, "a plan");
    let options = options(rt, 1, 2);
    numbers_of(rt, &analyse_stream(rt, &stream, &plan, &options, &OpenGate))
}

#[test]
fn counters_follow_the_plan(rt: HostRuntime) {
    assert_same(&rt, numbers_by(&rt, b"((0 1) 2)"), (0, 0, 4, 2));
    assert_same(&rt, numbers_by(&rt, b"(0 (1 2))"), (0, 2, 4, 1));
}

// k, p, q, workers and width of no options, and why they are refused.
const NO_OPTIONS: [(u64, u64, u64, u64, u64, OptionsFault); 10] = [
    (0, 0, 0, 0, 0, OptionsFault::BadK),
    (65_536, 1, 3, 1, 4, OptionsFault::BadK),
    (2, 0, 0, 0, 0, OptionsFault::BadWorkers),
    (2, 1, 3, 65, 4, OptionsFault::BadWorkers),
    (2, 0, 0, 1, 0, OptionsFault::BadWidth),
    (2, 1, 3, 1, 65_537, OptionsFault::BadWidth),
    (2, 0, 0, 1, 4, OptionsFault::BadThreshold),
    (2, 1, 4, 1, 4, OptionsFault::BadThreshold),
    (2, 3, 2, 1, 4, OptionsFault::BadThreshold),
    (
        2,
        4_294_967_297,
        4_294_967_297,
        1,
        4,
        OptionsFault::BadThreshold,
    ),
];

#[test]
fn options_are_refused_in_their_order(rt: HostRuntime) {
    for (k, p, q, workers, width, fault) in &NO_OPTIONS {
        let made = Options::new(*k, *p, *q, *workers, *width, plain_family(&rt));
        assert_same(&rt, made.err(), Some(*fault));
    }
}

#[test]
fn plan_has_to_match_the_cutting(rt: HostRuntime) {
    let alloc = rt.alloc();
    let stream = four_items(&rt);
    let cutting = Cutting::even(alloc, stream.len(), 2).expect(&rt, "pieces");
    let plan = Plan::chain(alloc, 3).expect(&rt, "a plan");
    let options = options(&rt, 2, 1);
    let outcome = analyse(&rt, alloc, &stream, &cutting, &plan, &options, &OpenGate);
    assert_same(&rt, outcome.err(), Some(RunError::PlanMismatch));
}
