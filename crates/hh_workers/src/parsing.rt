//! Plans read from their texts.

ghost use Rattle.std.specs.Prelude.{◌≡◌, ◌<◌, ◌++◌, ℕ, false, true, length, map, slice_index_or};
ghost use Rattle.std.specs.Prelude.{IfOk, IfErr, IfSome, IfNone, OnOk, option_map};
ghost use Rattle.hh_workers.specs.Plans.{open_of, reading_of, shape};
ghost use Rattle.hh_shared.specs.Numbers.{IsDistinctBelow};
ghost use Rattle.hh_workers.specs.PlanTexts.{AreMarked, NumbersRefused, PlanRefused, SyntaxRefused};
ghost use Rattle.hh_workers.specs.PlanTexts.{SpellsTree, after_tree, at_start, read_tree, step};
ghost use Rattle.hh_workers.specs.Trees.{IsMergeTree, leaves};

use crate::plan::{Tree, node};
use hh_faults::{ToolError, TreeFault};
use std::alloc::{AllocError, Global};
use std::collections::VecDeque;

/// An open parenthesis: its left tree is being read, or its right one after this left one.
#[derive(Drop)]
enum Open {
    Left,
    Right(Tree),
}

/// What is at the place that is read: a tree is to begin, a number goes on, or a tree has ended.
#[derive(Drop)]
enum Now {
    Start,
    Number(usize),
    Done(Tree),
}

/// What has been read of a text. The innermost open parenthesis is in front.
#[derive(Drop)]
pub(crate) struct Reading {
    now: Now,
    outer: VecDeque<Open>,
}

/// The most parentheses that are open at once.
const MAX_OPEN: usize = 1023;

/// After a tree comes a space or a closing parenthesis.
fn after_tree(
    alloc: Global,
    tree: Tree,
    mut outer: VecDeque<Open>,
    byte: u8,
) -> Result<Option<Reading>, AllocError>
    ensures { IfOk result (λ next.
        option_map reading_of next ≡ after_tree (shape tree) (map open_of outer.items) byte) }
{
    match outer.pop_front() {
        Some(Open::Left) if byte == b' ' => {
            outer.push_front(Open::Right(tree))?;
            let now = Now::Start;
            Ok(Some(Reading { now, outer }))
        }
        Some(Open::Right(left)) if byte == b')' => {
            let now = Now::Done(node(alloc, left, tree)?);
            Ok(Some(Reading { now, outer }))
        }
        _ => Ok(None),
    }
}

/// A tree begins with a digit or an opening parenthesis.
fn at_start(mut outer: VecDeque<Open>, byte: u8) -> Result<Option<Reading>, AllocError>
    ensures { IfOk result (λ next.
        option_map reading_of next ≡ at_start (map open_of outer.items) byte) }
{
    if byte.is_ascii_digit() {
        let now = Now::Number(usize::from(byte - b'0'));
        return Ok(Some(Reading { now, outer }));
    }
    if byte == b'(' && outer.len() < MAX_OPEN {
        outer.push_front(Open::Left)?;
        let now = Now::Start;
        return Ok(Some(Reading { now, outer }));
    }
    Ok(None)
}

/// The reading after one more byte, if a tree's text goes on so.
fn step(alloc: Global, reading: Reading, byte: u8) -> Result<Option<Reading>, AllocError>
    ensures { IfOk result (λ next. option_map reading_of next ≡ step (reading_of reading) byte) }
{
    let Reading { now, outer } = reading;
    match now {
        Now::Start => at_start(outer, byte),
        Now::Number(number) => {
            if !byte.is_ascii_digit() {
                return after_tree(alloc, Tree::Leaf(number), outer, byte);
            }
            if number < 1 || number >= 1000 {
                return Ok(None);
            }
            let now = Now::Number(number * 10 + usize::from(byte - b'0'));
            Ok(Some(Reading { now, outer }))
        }
        Now::Done(tree) => after_tree(alloc, tree, outer, byte),
    }
}

/// The tree that a reading has ended with.
fn ended_tree(reading: Reading) -> Option<Tree>
    ensures { option_map shape result ≡ read_tree (reading_of reading) }
{
    let Reading { now, outer } = reading;
    if !outer.is_empty() {
        return None;
    }
    match now {
        Now::Start => None,
        Now::Number(number) => Some(Tree::Leaf(number)),
        Now::Done(tree) => Some(tree),
    }
}

/// The tree that a text spells.
fn tree_of(alloc: Global, text: &[u8]) -> Result<Tree, ToolError>
    ensures tree { IfOk result (λ tree. SpellsTree text.now (shape tree)) }
    ensures refused { IfErr result (λ fault. SyntaxRefused text.now fault) }
{
    let mut reading = Reading {
        now: Now::Start,
        outer: VecDeque::new(alloc),
    };
    for (i, byte) in text.iter().enumerate() {
        let Some(next) = step(alloc, reading, *byte)? else {
            return Err(ToolError::BadTree(TreeFault::Syntax(i)));
        };
        reading = next;
    }
    match ended_tree(reading) {
        Some(tree) => Ok(tree),
        None => Err(ToolError::BadTree(TreeFault::Syntax(text.len()))),
    }
}

/// Appends the numbers of a tree's pieces, from left to right.
fn add_numbers(tree: &Tree, numbers: &mut Vec<usize>) -> Result<(), AllocError>
    ensures { OnOk result (numbers.new.items ≡ numbers.old.items ++ leaves (shape tree.now)) }
{
    match tree {
        Tree::Leaf(i) => Ok(numbers.push(*i)?),
        Tree::Node(left, right) => {
            add_numbers(left, numbers)?;
            add_numbers(right, numbers)
        }
    }
}

/// Marks which of `pieces` pieces the numbers name, if they are different ones.
fn marks_of(alloc: Global, numbers: &[usize], pieces: usize) -> Result<Vec<bool>, ToolError>
    ensures marks { IfOk result (λ marks. AreMarked marks.items pieces numbers.now) }
    ensures own { OnOk result (IsDistinctBelow pieces numbers.now) }
    ensures refused { IfErr result (λ fault. NumbersRefused pieces numbers.now fault) }
{
    let mut marks = vec![in alloc; false; pieces]?;
    for number in numbers {
        if *number >= pieces {
            return Err(ToolError::BadTree(TreeFault::UnknownPiece(*number)));
        }
        if marks[*number] {
            return Err(ToolError::BadTree(TreeFault::RepeatedPiece(*number)));
        }
        marks[*number] = true;
    }
    Ok(marks)
}

/// The least place that isn't marked.
fn least_unmarked(marks: &[bool]) -> Option<usize>
    ensures none { IfNone result ((i : ℕ) → i < length marks.now
        → slice_index_or marks.now i false ≡ true) }
    ensures least { IfSome result (λ i. (i < length marks.now)
        × (slice_index_or marks.now i false ≡ false)
        × ((j : ℕ) → j < i → slice_index_or marks.now j false ≡ true)) }
{
    marks.iter().position(|marked| !*marked)
}

/// Refuses a tree that doesn't have each of `pieces` numbers once.
fn check_numbers(alloc: Global, tree: &Tree, pieces: usize) -> Result<(), ToolError>
    ensures merges { OnOk result (IsMergeTree (shape tree.now) pieces) }
    ensures refused { IfErr result
        (λ fault. NumbersRefused pieces (leaves (shape tree.now)) fault) }
{
    let mut numbers = Vec::new(alloc);
    add_numbers(tree, &mut numbers)?;
    let marks = marks_of(alloc, &numbers, pieces)?;
    match least_unmarked(&marks) {
        None => Ok(()),
        Some(i) => Err(ToolError::BadTree(TreeFault::MissingPiece(i))),
    }
}

/// Reads a merge tree of `pieces` pieces.
pub(crate) fn read_merge_tree(alloc: Global, text: &[u8], pieces: usize) -> Result<Tree, ToolError>
    ensures tree { IfOk result (λ tree. SpellsTree text.now (shape tree)) }
    ensures merges { IfOk result (λ tree. IsMergeTree (shape tree) pieces) }
    ensures refused { IfErr result (λ fault. PlanRefused text.now pieces fault) }
{
    let tree = tree_of(alloc, text)?;
    check_numbers(alloc, &tree, pieces)?;
    Ok(tree)
}
