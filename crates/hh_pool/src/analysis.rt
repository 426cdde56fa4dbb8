//! The analysis of a stream: two passes by workers over pieces, and a merge between them.

ghost use Rattle.std.specs.Prelude.{◌≡◌, ◌≢◌, ◌+◌, ◌*◌, ◌≤◌, ◌<◌, ◌↔◌, true};
ghost use Rattle.std.specs.Prelude.{length, map, sum, IfOk, IsErr, IsErrOf, OnErr, OnOk, Err};
ghost use Rattle.hh_stream.specs.Weights.{max_total, total_of};
ghost use Rattle.hh_stream.specs.Cuttings.{max_pieces, pieces_of, whole_of};
ghost use Rattle.hh_stream.specs.Ranges.{in_range};
ghost use Rattle.hh_summaries.specs.Counters.{max_k, IsHonest, sketch_of};
ghost use Rattle.hh_summaries.specs.Report.{weights_at, heavy};
ghost use Rattle.hh_countmin.specs.Table.{FitsTable, table_of};
ghost use Rattle.hh_workers.specs.Workers.{max_workers};
ghost use Rattle.hh_workers.specs.Trees.{IsMergeTree, leaves};
ghost use Rattle.hh_pool.specs.Outcomes.{IsMerged};

use crate::first::FirstPass;
use crate::merging::merge_by;
use crate::options::Options;
use crate::outcome::{Outcome, RunError};
use crate::second::SecondPass;
use hh_counters::laws::{candidates_suffice, misra_gries_is_honest};
use hh_counters::{Candidates, Heavy, Summary, SummaryFault};
use hh_countmin::Table;
use hh_countmin::laws::{cells_are_cell_sums, tables_fit};
use hh_stream::laws::pieces_make_the_whole;
use hh_stream::{Cutting, PieceFault, Stream};
use hh_workers::{CutStream, Gate, Pieces, Plan, only_memory, share_work};
use std::alloc::{AllocError, Global};
use std::sync::Wait;
use std::thread::Threads;

/// The first pass: the summaries of the pieces, in order, and the table of all items, whose total
/// this is.
fn summarise<R: Threads + Wait + Sync, G: Gate + Sync>(
    rt: &R,
    alloc: Global,
    pieces: &CutStream<'_>,
    gate: &G,
    options: &Options,
    total: u64,
) -> Result<(Vec<Summary>, Table), PieceFault>
    requires some { 0 < length pieces.now }
    requires few { length pieces.now ≤ max_pieces }
    requires total { total ≡ total_of (whole_of pieces.now) }
    requires fits { total ≤ max_total }
    ensures summaries { IfOk result (λ r.
        r.0.items ≡ map (sketch_of options.now.k) pieces.now) }
    ensures table { let options = options.now in IfOk result (λ r.
        r.1 ≡ table_of options.family options.width (whole_of pieces.now)) }
    ensures refused { IsErrOf result PieceFault.Refused
        → max_total < total_of (whole_of pieces.now) }
{
    cells_are_cell_sums();
    tables_fit();
    let pass = FirstPass {
        alloc,
        pieces,
        gate,
        options,
    };
    let cells = (options.family().depth() * options.width()) as usize;
    match share_work(rt, alloc, &pass, cells, options.workers())? {
        Some((cells, found)) => {
            let summaries = pass.in_order(found)?;
            Ok((summaries, table_of_cells(options, total, cells)?))
        }
        None => pass.sequential(),
    }
}

/// The table with these cells and this total.
fn table_of_cells(options: &Options, total: u64, cells: Vec<u64>) -> Result<Table, AllocError>
    requires { FitsTable options.now.family options.now.width total cells.items }
    ensures { IfOk result (λ table. table ≡ record {
      family = options.now.family;
      width = options.now.width;
      total = total;
      cells = cells.items;
    }) }
{
    let family = options.family().copy()?;
    Ok(Table::from_cells(family, options.width(), total, cells))
}

/// The second pass: the weight of each candidate in all items.
fn weigh<R: Threads + Wait + Sync, G: Gate + Sync>(
    rt: &R,
    alloc: Global,
    pieces: &CutStream<'_>,
    gate: &G,
    candidates: &Candidates,
    workers: u64,
) -> Result<Vec<u64>, PieceFault>
    requires some { 0 < length pieces.now }
    requires few { length pieces.now ≤ max_pieces }
    requires workers { in_range workers max_workers ≡ true }
    requires few_keys { length candidates.now ≤ max_k }
    requires fits { total_of (whole_of pieces.now) ≤ max_total }
    ensures weights { IfOk result (λ weights.
        weights.items ≡ weights_at candidates.now (whole_of pieces.now)) }
    ensures refused { IsErrOf result PieceFault.Refused
        → max_total < total_of (whole_of pieces.now) }
{
    let pass = SecondPass {
        alloc,
        pieces,
        gate,
        candidates,
    };
    match share_work(rt, alloc, &pass, candidates.len(), workers)? {
        Some((weights, _)) => Ok(weights),
        None => {
            let (counted, _) = pass.sequential(workers)?;
            Ok(counted)
        }
    }
}

/// The summaries of the pieces, merged as the plan says, and the table of all items, whose total
/// this is.
fn merge_pieces<R: Threads + Wait + Sync, G: Gate + Sync>(
    rt: &R,
    alloc: Global,
    pieces: &CutStream<'_>,
    gate: &G,
    plan: &Plan,
    options: &Options,
    total: u64,
) -> Result<(Summary, Table), PieceFault>
    requires plan { IsMergeTree plan.now (length pieces.now) }
    requires some { 0 < length pieces.now }
    requires few { length pieces.now ≤ max_pieces }
    requires total { total ≡ total_of (whole_of pieces.now) }
    requires fits { total ≤ max_total }
    ensures summary { let lists = pieces.now in IfOk result (λ merged.
        IsMerged plan.now options.now.k lists (whole_of lists) merged.0) }
    ensures table { let options = options.now in IfOk result (λ merged.
        merged.1 ≡ table_of options.family options.width (whole_of pieces.now)) }
    ensures refused { IsErrOf result PieceFault.Refused
        → max_total < total_of (whole_of pieces.now) }
{
    misra_gries_is_honest();
    let (summaries, table) = summarise(rt, alloc, pieces, gate, options, total)?;
    match merge_by(alloc, plan, summaries) {
        Ok(summary) => Ok((summary, table)),
        Err(SummaryFault::Memory) => Err(PieceFault::Memory),
        // The summaries have one k, and totals that fit: nothing comes to these.
        Err(SummaryFault::DifferentK) => Err(PieceFault::Refused),
        Err(SummaryFault::TotalTooLarge) => Err(PieceFault::Refused),
        Err(SummaryFault::BadK) => Err(PieceFault::Refused),
    }
}

/// The keys above the options' threshold, by a second pass that counts those of the summary.
fn heavy_keys<R: Threads + Wait + Sync, G: Gate + Sync>(
    rt: &R,
    alloc: Global,
    pieces: &CutStream<'_>,
    gate: &G,
    summary: &Summary,
    options: &Options,
) -> Result<Vec<Heavy>, PieceFault>
    requires some { 0 < length pieces.now }
    requires few { length pieces.now ≤ max_pieces }
    requires total { summary.now.total ≡ total_of (whole_of pieces.now) }
    requires honest { let xs = whole_of pieces.now in
        IsHonest summary.now.counters (total_of xs) xs options.now.k }
    ensures heavy { let xs = whole_of pieces.now in
        IfOk result (λ rows. rows.items ≡ heavy xs options.now.p options.now.q) }
    ensures refused { IsErrOf result PieceFault.Refused
        → max_total < total_of (whole_of pieces.now) }
{
    candidates_suffice();
    let (p, q) = options.threshold();
    let total = summary.total();
    let candidates = Candidates::with_hasher(alloc, summary, options.hash())?;
    let weights = weigh(rt, alloc, pieces, gate, &candidates, options.workers())?;
    Ok(candidates.select(&weights, total, p, q)?)
}

/// The outcome, where the plan has as many pieces as there are, and this is the total of all items.
fn run_passes<R: Threads + Wait + Sync, G: Gate + Sync>(
    rt: &R,
    alloc: Global,
    pieces: &CutStream<'_>,
    gate: &G,
    plan: &Plan,
    options: &Options,
    total: u64,
) -> Result<Outcome, PieceFault>
    requires plan { IsMergeTree plan.now (length pieces.now) }
    requires some { 0 < length pieces.now }
    requires few { length pieces.now ≤ max_pieces }
    requires total { total ≡ total_of (whole_of pieces.now) }
    requires fits { total ≤ max_total }
    ensures summary { let lists = pieces.now in IfOk result (λ outcome.
        IsMerged plan.now options.now.k lists (whole_of lists) outcome.summary) }
    ensures table { let options = options.now in IfOk result (λ outcome.
        outcome.table ≡ table_of options.family options.width (whole_of pieces.now)) }
    ensures heavy { let xs = whole_of pieces.now in IfOk result (λ outcome.
        outcome.heavy.items ≡ heavy xs options.now.p options.now.q) }
    ensures refused { IsErrOf result PieceFault.Refused
        → max_total < total_of (whole_of pieces.now) }
{
    let (summary, table) = merge_pieces(rt, alloc, pieces, gate, plan, options, total)?;
    let heavy = heavy_keys(rt, alloc, pieces, gate, &summary, options)?;
    Ok(Outcome {
        summary,
        table,
        heavy,
    })
}

/// Whether the plan has as many pieces as there are.
fn check_counts(plan: &Plan, count: usize) -> Result<(), RunError>
    ensures same { OnOk result (length (leaves plan.now) ≡ count) }
    ensures plan { OnOk result (IsMergeTree plan.now count) }
    ensures some { OnOk result (0 < count) }
    ensures few { OnOk result (count ≤ max_pieces) }
    ensures mismatch { OnErr result (length (leaves plan.now) ≢ count) }
    ensures refused { IsErr result → result ≡ Err RunError.PlanMismatch }
{
    if plan.count() != count {
        return Err(RunError::PlanMismatch);
    }
    Ok(())
}

/// Analyses a stream, with workers that share nothing but atomic sums: they summarise the pieces
/// and fill the table, the summaries are merged as the plan says, and the workers count the merged
/// summary's keys. The outcome is the same for every number of workers and whatever worker does
/// which piece: the counters are those of the plan's merges, honest for the stream (Agarwal et al.,
/// PODS 2012), the table is the stream's, cell for cell (Cormode and Muthukrishnan 2005), and the
/// heavy keys are exactly those above the options' threshold, with their true weights.
///
/// It starts the workers, numbered from 0, in threads of their own, and waits for them.
pub fn analyse<R: Threads + Wait + Sync, G: Gate + Sync>(
    rt: &R,
    alloc: Global,
    stream: &Stream,
    cutting: &Cutting,
    plan: &Plan,
    options: &Options,
    gate: &G,
) -> Result<Outcome, RunError>
    requires { sum cutting.now ≡ length stream.now }
    ensures plan_mismatch { IsErrOf result RunError.PlanMismatch
        ↔ (length (leaves plan.now) ≢ length cutting.now) }
    ensures summary { let pieces = pieces_of cutting.now stream.now in IfOk result (λ outcome.
        IsMerged plan.now options.now.k pieces stream.now outcome.summary) }
    ensures table { IfOk result (λ outcome.
        outcome.table ≡ table_of options.now.family options.now.width stream.now) }
    ensures heavy { IfOk result (λ outcome.
        outcome.heavy.items ≡ heavy stream.now options.now.p options.now.q) }
{
    pieces_make_the_whole();
    let total = stream.total();
    let pieces = CutStream::new(stream, cutting);
    check_counts(plan, pieces.count())?;
    match only_memory(run_passes(rt, alloc, &pieces, gate, plan, options, total)) {
        Ok(outcome) => Ok(outcome),
        Err(_) => Err(RunError::Memory),
    }
}
