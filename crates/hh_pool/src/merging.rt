//! Summaries merged by a plan.

ghost use Rattle.std.specs.Prelude.{◌≡◌, ◌≤◌, ℕ, length, map, sum_by, slice_index_or};
ghost use Rattle.std.specs.Prelude.{All, Ok, IfOk, IfErr};
ghost use Rattle.hh_stream.specs.Cuttings.{max_pieces};
ghost use Rattle.hh_shared.specs.Numbers.{times, IsDistinctBelow};
ghost use Rattle.hh_summaries.specs.Faults.{IsMergeFault};
ghost use Rattle.hh_workers.specs.Plans.{shape};
ghost use Rattle.hh_pool.specs.Trees.{MergesHonestly, Refuses};
ghost use Rattle.hh_workers.specs.Trees.{IsMergeTree};
ghost use Rattle.hh_pool.specs.Trees.{merge_result, no_sketch, tree_result, tree_value};
ghost use Rattle.hh_workers.specs.Trees.{leaves};

use hh_counters::laws::join_of_honest_is_honest;
use hh_counters::{Summary, SummaryFault};
use hh_workers::{Plan, Tree};
use std::alloc::Global;
use std::mem;

/// Takes a summary, and leaves the summary of no items in its place.
fn take_summary(alloc: Global, summary: &mut Summary) -> Summary
    ensures { result ≡ summary.old }
{
    let empty = Summary::empty(alloc, summary.k());
    mem::replace(summary, empty)
}

/// One summary merged with another.
fn merge_two(mut left: Summary, right: &Summary) -> Result<Summary, SummaryFault>
    ensures merged { IfOk result (λ s. merge_result left right.now ≡ Ok s) }
    ensures refused { IfErr result (Refuses (merge_result left right.now)) }
    ensures faults { IfErr result IsMergeFault }
{
    left.merge(right)?;
    Ok(left)
}

/// Merges the summaries of a tree's pieces, which it takes from their places.
fn merge_tree(
    alloc: Global,
    tree: &Tree,
    summaries: &mut [Summary],
) -> Result<Summary, SummaryFault>
    requires places { IsDistinctBelow (length summaries.old) (leaves (shape tree.now)) }
    requires fits { length summaries.old ≤ max_pieces }
    ensures merged { IfOk result (λ s. tree_result (shape tree.now) summaries.old ≡ Ok s) }
    ensures refused { IfErr result (Refuses (tree_result (shape tree.now) summaries.old)) }
    ensures faults { IfErr result IsMergeFault }
    ensures others { (i : ℕ) → times i (leaves (shape tree.now)) ≡ 0
        → slice_index_or summaries.new i no_sketch ≡ slice_index_or summaries.old i no_sketch }
{
    match tree {
        Tree::Leaf(i) => Ok(take_summary(alloc, &mut summaries[*i])),
        Tree::Node(left, right) => {
            let merged = merge_tree(alloc, left, summaries)?;
            let other = merge_tree(alloc, right, summaries)?;
            merge_two(merged, &other)
        }
    }
}

/// The summaries of the pieces merged as the plan says: a leaf is its piece's summary, and a node
/// is the left result merged with the right one. The refusal is the first one met, in the left tree
/// before the right tree before the node: `DifferentK`, `TotalTooLarge` or `Memory`.
///
/// Whatever the plan, where each summary is honest for a list of items, the result is honest for
/// all of them (Agarwal et al., Mergeable Summaries, PODS 2012).
pub fn merge_by(
    alloc: Global,
    plan: &Plan,
    mut summaries: Vec<Summary>,
) -> Result<Summary, SummaryFault>
    requires { IsMergeTree plan.now (length summaries.items) }
    ensures merged { IfOk result (λ s. tree_result plan.now summaries.items ≡ Ok s) }
    ensures refused { IfErr result (Refuses (tree_result plan.now summaries.items)) }
    ensures faults { IfErr result IsMergeFault }

    ensures k { IfOk result (λ s. All (λ piece. piece.k ≡ s.k) summaries.items) }
    ensures total { IfOk result (λ s. s.total ≡ sum_by (λ piece. piece.total) summaries.items) }
    ensures counters { IfOk result (λ s.
        s.counters ≡ tree_value plan.now (map (λ piece. piece.counters) summaries.items) s.k) }
    ensures honest { IfOk result (λ s. MergesHonestly summaries.items s) }
{
    join_of_honest_is_honest();
    merge_tree(alloc, plan.tree(), &mut summaries)
}
