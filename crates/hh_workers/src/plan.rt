//! Plans: merge trees over numbered pieces.

ghost use Rattle.std.specs.Prelude.{◌≡◌, ◌+◌, ◌-◌, ◌≤◌, length, IsOk, IfOk, IfErr};
ghost use Rattle.hh_stream.specs.Cuttings.{max_pieces};
ghost use Rattle.hh_workers.specs.PlanTexts.{PlanRefused, SpellsTree};
ghost use Rattle.hh_workers.specs.Plans.{shape};
ghost use Rattle.hh_workers.specs.Trees.{IsBalanced, IsMergeTree, Merge, chain_of, leaves};

use crate::parsing::read_merge_tree;
use hh_faults::ToolError;
use std::alloc::{AllocError, Global};
use std::marker::Model;

/// A piece, or two trees whose results are merged.
#[derive(Debug, Drop)]
pub enum Tree {
    Leaf(usize),
    Node(Box<Tree>, Box<Tree>),
}

/// A plan to merge the summaries of 1 to [`MAX_PIECES`](hh_stream::MAX_PIECES) pieces: a tree in
/// which each piece's number is a leaf exactly once. A contract sees the tree.
#[derive(Debug, Drop)]
pub struct Plan {
    tree: Tree,
    count: usize,
}

impl Model for Plan {
    ghost use Rattle.std.specs.Prelude.{◌≤◌};
    ghost use Rattle.hh_stream.specs.Cuttings.{max_pieces};
    ghost use Rattle.hh_workers.specs.Plans.{shape};
    ghost use Rattle.hh_workers.specs.Trees.{IsMergeTree, MergeTree, tree_code};

    ghost Value = { MergeTree };

    ghost coded = { tree_code };

    ghost view = { λ plan. shape plan.tree };

    ghost invariant = { λ plan. IsMergeTree (shape plan.tree) plan.count × (1 ≤ plan.count)
        × (plan.count ≤ max_pieces) };
}

/// The tree of two others.
pub fn node(alloc: Global, left: Tree, right: Tree) -> Result<Tree, AllocError>
    ensures { IfOk result (λ tree. shape tree ≡ Merge (shape left) (shape right)) }
{
    Ok(Tree::Node(Box::new(alloc, left)?, Box::new(alloc, right)?))
}

/// The chain of `pieces` pieces.
fn chain_tree(alloc: Global, pieces: usize) -> Result<Tree, AllocError>
    requires { 1 ≤ pieces }
    ensures chain { IfOk result (λ tree. shape tree ≡ chain_of (pieces - 1)) }
    ensures one { pieces ≡ 1 → IsOk result }
{
    let mut tree = Tree::Leaf(0);
    for i in 1..pieces {
        tree = node(alloc, tree, Tree::Leaf(i))?;
    }
    Ok(tree)
}

/// The balanced tree of `pieces` pieces, numbered from `first` on.
fn balanced_tree(alloc: Global, first: usize, pieces: usize) -> Result<Tree, AllocError>
    requires some { 1 ≤ pieces }
    requires fits { first + pieces ≤ max_pieces }
    ensures balanced { IfOk result (λ tree. IsBalanced (shape tree) first pieces) }
    ensures one { pieces ≡ 1 → IsOk result }
{
    if pieces == 1 {
        return Ok(Tree::Leaf(first));
    }
    let half = (pieces + 1) / 2;
    let left = balanced_tree(alloc, first, half)?;
    let right = balanced_tree(alloc, first + half, pieces - half)?;
    node(alloc, left, right)
}

impl Plan {
    /// The pieces merged one after the other: `((0 1) 2)` and so on.
    #[tactic(auto, using(crate::proofs::TreeFacts::chain_merges))]
    pub fn chain(alloc: Global, pieces: usize) -> Result<Plan, AllocError>
        requires some { 1 ≤ pieces }
        requires few { pieces ≤ max_pieces }
        ensures chain { IfOk result (λ plan. plan ≡ chain_of (pieces - 1)) }
        ensures tree { IfOk result (λ plan. IsMergeTree plan pieces) }
        ensures pieces { IfOk result (λ plan. length (leaves plan) ≡ pieces) }

        // the plan of one piece takes no memory
        ensures one { pieces ≡ 1 → IsOk result }
    {
        Ok(Plan {
            tree: chain_tree(alloc, pieces)?,
            count: pieces,
        })
    }

    /// A balanced tree: of more than one piece, the first half, rounded up, are the left tree.
    #[tactic(auto, using(crate::proofs::TreeFacts::balanced_merges))]
    pub fn balanced(alloc: Global, pieces: usize) -> Result<Plan, AllocError>
        requires some { 1 ≤ pieces }
        requires few { pieces ≤ max_pieces }
        ensures balanced { IfOk result (λ plan. IsBalanced plan 0 pieces) }
        ensures tree { IfOk result (λ plan. IsMergeTree plan pieces) }
        ensures pieces { IfOk result (λ plan. length (leaves plan) ≡ pieces) }

        // the plan of one piece takes no memory
        ensures one { pieces ≡ 1 → IsOk result }
    {
        Ok(Plan {
            tree: balanced_tree(alloc, 0, pieces)?,
            count: pieces,
        })
    }

    /// Reads a plan of `pieces` pieces: a tree is a piece's number, without leading zeros, or two
    /// trees in parentheses with a space between them, as `((0 1) 2)`.
    ///
    /// The syntax is judged over the whole text first. Then the numbers are taken from left to
    /// right: the error names the first one that is unknown or came before, and then the least one
    /// that is missing. It is `BadTree`, or `Memory`.
    #[tactic(auto, using(crate::proofs::LeafFacts::length_leaves))]
    pub fn parse(alloc: Global, text: &[u8], pieces: usize) -> Result<Plan, ToolError>
        requires some { 1 ≤ pieces }
        requires few { pieces ≤ max_pieces }
        ensures spelled { IfOk result (λ plan. SpellsTree text.now plan) }
        ensures tree { IfOk result (λ plan. IsMergeTree plan pieces) }
        ensures pieces { IfOk result (λ plan. length (leaves plan) ≡ pieces) }
        ensures refused { IfErr result (λ fault. PlanRefused text.now pieces fault) }
    {
        Ok(Plan {
            tree: read_merge_tree(alloc, text, pieces)?,
            count: pieces,
        })
    }

    /// The number of pieces.
    #[tactic(auto, using(crate::proofs::LeafFacts::length_leaves))]
    pub fn count(&self) -> usize
        ensures pieces { result ≡ length (leaves self.now) }
        ensures tree { IsMergeTree self.now result }
        ensures some { 1 ≤ result }
        ensures few { result ≤ max_pieces }
    {
        self.count
    }

    /// The tree.
    #[tactic(auto, using(crate::proofs::LeafFacts::length_leaves))]
    pub fn tree(&self) -> &Tree
        ensures tree { shape result.now ≡ self.now }
        ensures few { length (leaves self.now) ≤ max_pieces }
    {
        &self.tree
    }
}
