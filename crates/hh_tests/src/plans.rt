//! The worked rows on summaries merged by plans.

ghost use Rattle.std.specs.Prelude.{◌<◌};

use crate::fixtures::{assert_same, counter_of, key_of, summary_of};
use hh_counters::{Summary, SummaryFault};
use hh_faults::{ToolError, TreeFault};
use hh_pool::{Plan, merge_by};
use hh_stream::MAX_TOTAL;
use std::process::Abort;

// The summary of one item.
fn one(rt: &(impl Abort + AllocGlobal), k: u64, word: &[u8], weight: u64) -> Summary
    requires { 0 < weight }
{
    let mut summary = Summary::new(rt.alloc(), k).expect(rt, "a summary");
    summary.add(&key_of(rt, word), weight).expect(rt, "an item");
    summary
}

// The merge of as many summaries as the plan has pieces.
fn merge_all(
    rt: &(impl Abort + AllocGlobal),
    plan: &Plan,
    summaries: Vec<Summary>,
) -> Result<Summary, SummaryFault> {
    assert!(rt; plan.count() == summaries.len());
    merge_by(rt.alloc(), plan, summaries)
}

// The first `count` of the summaries of a 2, b 1, c 1, d 1 for k = 1.
fn pieces(rt: &(impl Abort + AllocGlobal), count: usize) -> Vec<Summary> {
    let mut summaries = Vec::new(rt.alloc());
    for (i, word) in [b"a", b"b", b"c", b"d"].iter().enumerate() {
        if i < count {
            let weight = if i == 0 { 2 } else { 1 };
            summaries.push(one(rt, 1, *word, weight)).expect(rt, "room");
        }
    }
    summaries
}

// What the merge of the pieces by a plan has: how many counters, those of a and d, the total and
// the slack.
fn merge_of(rt: &(impl Abort + AllocGlobal), plan: &Plan) -> (usize, u64, u64, u64, u64) {
    let summary = merge_all(rt, plan, pieces(rt, plan.count())).expect(rt, "a merge");
    let a = counter_of(rt, &summary, b"a");
    let d = counter_of(rt, &summary, b"d");
    (summary.len(), a, d, summary.total(), summary.slack())
}

// The plan that the text spells.
fn plan_of(rt: &(impl Abort + AllocGlobal), text: &[u8], pieces: usize) -> Plan
    requires { (0 < pieces) × (pieces < 9) }
{
    Plan::parse(rt.alloc(), text, pieces).expect(rt, "a plan")
}

#[test]
fn merges_follow_the_plan(rt: HostRuntime) {
    let chain = Plan::chain(rt.alloc(), 4).expect(&rt, "a plan");
    assert_same(&rt, merge_of(&rt, &chain), (1, 0, 1, 5, 2));
    let balanced = Plan::balanced(rt.alloc(), 4).expect(&rt, "a plan");
    assert_same(&rt, merge_of(&rt, &balanced), (1, 1, 0, 5, 2));
    let left = plan_of(&rt, b"((0 1) 2)", 3);
    assert_same(&rt, merge_of(&rt, &left), (0, 0, 0, 4, 2));
    let right = plan_of(&rt, b"(0 (1 2))", 3);
    assert_same(&rt, merge_of(&rt, &right), (1, 2, 0, 4, 1));
}

// The k and the weight of the summaries of a piece each, which `((0 1) (2 3))` merges, and the
// fault: that of the left tree comes before that of the right tree, and this before the node's.
const REFUSED: [([(u64, u64); 4], SummaryFault); 7] = [
    (
        [(1, 1), (2, 1), (1, MAX_TOTAL), (1, 1)],
        SummaryFault::DifferentK,
    ),
    (
        [(1, MAX_TOTAL), (1, 1), (1, 1), (2, 1)],
        SummaryFault::TotalTooLarge,
    ),
    (
        [(1, MAX_TOTAL), (1, 1), (2, 1), (2, 1)],
        SummaryFault::TotalTooLarge,
    ),
    (
        [(1, 1), (1, 1), (2, MAX_TOTAL), (2, 1)],
        SummaryFault::TotalTooLarge,
    ),
    (
        [(1, MAX_TOTAL - 1), (1, 1), (1, 1), (2, 1)],
        SummaryFault::DifferentK,
    ),
    (
        [(1, MAX_TOTAL - 1), (1, 1), (1, 1), (1, 1)],
        SummaryFault::TotalTooLarge,
    ),
    (
        [(1, MAX_TOTAL - 1), (1, 1), (2, 1), (2, 1)],
        SummaryFault::DifferentK,
    ),
];

// The fault of merging these summaries of the item a.
fn refusal_of(rt: &(impl Abort + AllocGlobal), pieces: &[(u64, u64)]) -> Option<SummaryFault> {
    let mut summaries = Vec::new(rt.alloc());
    for (k, weight) in pieces {
        let summary = summary_of(rt, *k, &[(b'a', *weight)]);
        summaries.push(summary).expect(rt, "room");
    }
    let plan = plan_of(rt, b"((0 1) (2 3))", 4);
    merge_all(rt, &plan, summaries).err()
}

#[test]
fn merges_are_refused_from_left_to_right_and_then_at_the_node(rt: HostRuntime) {
    for (pieces, fault) in &REFUSED {
        assert_same(&rt, refusal_of(&rt, pieces), Some(*fault));
    }
}

// Texts, numbers of pieces, and why the text is no plan of that many pieces.
const NO_PLANS: [(&[u8], usize, TreeFault); 13] = [
    (b"(0 (1 1))", 3, TreeFault::RepeatedPiece(1)),
    (b"(0 1)", 3, TreeFault::MissingPiece(2)),
    (b"(0 3)", 3, TreeFault::UnknownPiece(3)),
    (b"(0", 3, TreeFault::Syntax(2)),
    (b"(0 1))", 3, TreeFault::Syntax(5)),
    (b"(0  1)", 3, TreeFault::Syntax(3)),
    (b"", 3, TreeFault::Syntax(0)),
    (b"01", 3, TreeFault::Syntax(1)),
    (b"12345", 3, TreeFault::Syntax(4)),
    (b"(2 (3 2))", 3, TreeFault::UnknownPiece(3)),
    (b"(2 (2 3))", 3, TreeFault::RepeatedPiece(2)),
    (b"(0 0)", 3, TreeFault::RepeatedPiece(0)),
    (&[b'('; 1024], 1024, TreeFault::Syntax(1023)),
];

#[test]
fn texts_of_no_plan_are_refused(rt: HostRuntime) {
    for (text, pieces, fault) in &NO_PLANS {
        assert!(rt; 1 <= *pieces && *pieces <= 1024);
        let refused = Plan::parse(rt.alloc(), text, *pieces).err();
        assert_same(&rt, refused, Some(ToolError::BadTree(*fault)));
    }
}
