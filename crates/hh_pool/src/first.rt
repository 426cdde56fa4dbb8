//! The first pass: each piece is summarised, and its items are added to the cells of one table.

ghost use Rattle.std.specs.Prelude.{◌≡◌, ◌+◌, ◌*◌, ◌<◌, ◌≤◌, ◌++◌};
ghost use Rattle.std.specs.Prelude.{[], ℕ, List, length, map, max, sum, true, IfOk, IsErrOf};
ghost use Rattle.hh_stream.specs.Weights.{max_total, Entry, total_of};
ghost use Rattle.hh_stream.specs.Cuttings.{pieces_of, whole_of};
ghost use Rattle.hh_stream.specs.Ranges.{in_range};
ghost use Rattle.hh_summaries.specs.Counters.{max_k, sketch_of};
ghost use Rattle.hh_counters.specs.SpaceSaving.{monitor_of, translation_of};
ghost use Rattle.hh_countmin.specs.Family.{Coefficients};
ghost use Rattle.hh_countmin.specs.Table.{table_of};
ghost use Rattle.hh_shared.specs.Seats.{fresh};
ghost use Rattle.hh_pool.specs.Passes.{AreSummaries, IsFirstPass};
ghost use Rattle.hh_workers.specs.Pieces.{piece_of};
ghost use Rattle.hh_pool.specs.Progress.{sketches_with};

use crate::options::Options;
use hh_counters::laws::summaries_follow_items;
use hh_counters::{BucketSaving, Monitor, Summary};
use hh_countmin::Table;
use hh_countmin::laws::{cells_are_cell_sums, tables_follow_items};
use hh_shared::{SharedSums, SumSeat};
use hh_stream::laws::pieces_make_the_whole;
use hh_stream::{Cutting, KeyHash, PieceFault, Stream, TakeItems};
use hh_workers::{
    CutStream, Gate, Pass, Pieces, add_numbers, only_memory, run_sequentially, run_worker,
};
use std::alloc::{AllocError, Global};

/// What each worker of the first pass goes over, and by which options.
#[derive(Drop)]
pub(crate) struct FirstPass<'a, 's, G> {
    pub(crate) alloc: Global,
    pub(crate) pieces: &'a CutStream<'s>,
    pub(crate) gate: &'a G,
    pub(crate) options: &'a Options,
}

/// Runs one worker of the first pass: it claims pieces from the lowest on, and of each that it gets
/// it calls the gate and makes the summary. It gathers what the items of its pieces add to the
/// cells in a table of its own, and adds that to the shared cells at the end: row r, cell c is
/// number r * width + c there. It waits for nobody, unless the gate does. Where memory is refused,
/// the seat is lost.
pub fn first_pass<G: Gate>(
    alloc: Global,
    sums: &SharedSums,
    seat: SumSeat,
    stream: &Stream,
    cutting: &Cutting,
    options: &Options,
    gate: &G,
    worker: u64,
) -> Result<(SumSeat, Vec<(usize, Summary)>), AllocError>
    requires same_len { sum cutting.now ≡ length stream.now }
    requires seat { seat ≡ fresh sums.now }
    requires claims { sums.now.claims ≡ length cutting.now }
    requires cells { sums.now.cells ≡ length options.now.family.rows * options.now.width }
    ensures sums { IfOk result (λ r. r.0.sums ≡ sums.now) }
    ensures pass { IfOk result
        (λ r. IsFirstPass (pieces_of cutting.now stream.now) options.now r.0 r.1.items) }
{
    pieces_make_the_whole();
    // It bounds the weights of the pieces.
    let _total = stream.total();
    let pass = FirstPass {
        alloc,
        pieces: &CutStream::new(stream, cutting),
        gate,
        options,
    };
    only_memory(run_worker(&pass, sums, seat, worker))
}

/// Makes the first pass by the calling thread, as where no worker claimed a piece: the summaries of
/// all pieces, in order, and the table of the stream. `gate` hears the options' number of workers.
pub fn first_pass_sequentially<G: Gate>(
    alloc: Global,
    stream: &Stream,
    cutting: &Cutting,
    options: &Options,
    gate: &G,
) -> Result<(Vec<Summary>, Table), AllocError>
    requires same_len { sum cutting.now ≡ length stream.now }
    ensures summaries { IfOk result (λ r.
        r.0.items ≡ map (sketch_of options.now.k) (pieces_of cutting.now stream.now)) }
    ensures table { IfOk result (λ r.
        r.1 ≡ table_of options.now.family options.now.width stream.now) }
{
    pieces_make_the_whole();
    // It bounds the weights of the pieces.
    let _total = stream.total();
    let pass = FirstPass {
        alloc,
        pieces: &CutStream::new(stream, cutting),
        gate,
        options,
    };
    only_memory(pass.sequential())
}

/// The table of no items.
pub(crate) fn empty_table(alloc: Global, options: &Options) -> Result<Table, AllocError>
    ensures { IfOk result (λ table. table ≡ table_of options.now.family options.now.width []) }
{
    let family = options.family().copy()?;
    Table::empty(alloc, family, options.width())
}

/// What takes the items of a piece: its own monitor, and the table of all pieces that a worker
/// reads.
#[derive(Drop)]
struct Sketches {
    monitor: BucketSaving,
    table: Table,
}

impl Sketches {
    // The monitor has taken no item yet.
    fn beside(table: Table, alloc: Global, k: u64, hash: KeyHash) -> Result<Sketches, AllocError>
        requires { in_range k max_k ≡ true }
        ensures { IfOk result
            (λ s. s ≡ record { monitor = monitor_of k []; table = table }) }
    {
        let monitor = BucketSaving::with_hasher(alloc, k, hash)?;
        Ok(Sketches { monitor, table })
    }

    // The summary of Misra-Gries, to which the monitor is translated, and the table.
    fn into_parts(self) -> Result<(Summary, Table), PieceFault>
        ensures parts { IfOk result
            (λ r. (r.0 ≡ translation_of self.monitor) × (r.1 ≡ self.table)) }
        ensures memory { ¬ IsErrOf result PieceFault.Refused }
    {
        match self.monitor.into_summary() {
            Ok(summary) => Ok((summary, self.table)),
            Err(_) => Err(PieceFault::Memory),
        }
    }
}

impl TakeItems for Sketches {
    ghost with_item = { sketches_with };

    ghost weight_taken = { λ sketches. max sketches.monitor.total sketches.table.total };

    fn total(&self) -> u64 {
        Monitor::total(&self.monitor).max(self.table.total())
    }

    fn take(&mut self, _alloc: Global, key: &[u8], weight: u64) -> Result<(), AllocError> {
        self.monitor.add_within(key, weight)?;
        self.table.add_within(key, weight);
        Ok(())
    }
}

/// The summaries and the table that a worker has made so far.
#[derive(Drop)]
pub(crate) struct LocalSketches {
    summaries: Vec<(usize, Summary)>,
    table: Table,
}

impl<'a, 's, G: Gate> FirstPass<'a, 's, G> {
    // The summary of a piece, by Space-Saving in buckets, and the table with the piece's items.
    fn summarise(&self, table: Table, piece: usize) -> Result<(Summary, Table), PieceFault>
        requires { piece < length self.now.pieces.now }
        ensures summary { let items = piece_of self.now.pieces.now piece in
            IfOk result (λ r. r.0 ≡ sketch_of self.now.options.now.k items) }
        ensures table { let items = piece_of self.now.pieces.now piece in IfOk result (λ r.
            (family : Coefficients) (width : ℕ) (ys : List Entry)
            → table ≡ table_of family width ys → r.1 ≡ table_of family width (ys ++ items)) }
        ensures refused { IsErrOf result PieceFault.Refused
            → max_total < table.total + total_of (piece_of self.now.pieces.now piece) }
    {
        summaries_follow_items();
        tables_follow_items();
        let hash = self.options.hash();
        let mut sketches = Sketches::beside(table, self.alloc, self.options.k(), hash)?;
        self.pieces.feed(self.alloc, piece, &mut sketches)?;
        sketches.into_parts()
    }

    /// The summaries that all workers kept, in the order of the pieces.
    pub(crate) fn in_order(
        &self,
        mut found: Vec<(usize, Summary)>,
    ) -> Result<Vec<Summary>, AllocError>
        requires { AreSummaries self.now.options.now.k self.now.pieces.now found.items }
        ensures { IfOk result (λ summaries.
            summaries.items ≡ map (sketch_of self.now.options.now.k) self.now.pieces.now) }
    {
        found.sort_unstable_by(|a, b| a.0.cmp(&b.0));
        let mut summaries = Vec::new(self.alloc);
        for (_, summary) in found {
            summaries.push(summary)?;
        }
        Ok(summaries)
    }

    /// Makes the summaries of the pieces, in order, and the table of all items in the calling
    /// thread, without sums.
    pub(crate) fn sequential(&self) -> Result<(Vec<Summary>, Table), PieceFault>
        ensures summaries { IfOk result (λ r.
            r.0.items ≡ map (sketch_of self.now.options.now.k) self.now.pieces.now) }
        ensures table { let options = self.now.options.now in IfOk result (λ r.
            r.1 ≡ table_of options.family options.width (whole_of self.now.pieces.now)) }
        ensures refused { IsErrOf result PieceFault.Refused
            → max_total < total_of (whole_of self.now.pieces.now) }
    {
        let LocalSketches { summaries, table } = run_sequentially(self, self.options.workers())?;
        Ok((self.in_order(summaries)?, table))
    }
}

impl<'a, 's, G: Gate> Pass for FirstPass<'a, 's, G> {
    type Local = LocalSketches;

    type Partial = Vec<(usize, Summary)>;

    ghost use Rattle.std.specs.Prelude.{◌*◌, ◌<◌, length};
    ghost use Rattle.hh_stream.specs.Cuttings.{whole_of};
    ghost use Rattle.hh_stream.specs.Weights.{max_total, total_of};
    ghost use Rattle.hh_pool.specs.Passes.{AreFirstPasses};
    ghost use Rattle.hh_pool.specs.Progress.{IsFirstMade};

    ghost pieces = { λ p. length p.pieces.now };

    ghost cells = { λ p. length p.options.now.family.rows * p.options.now.width };

    ghost is_made = { λ p numbers made.
        IsFirstMade p.pieces.now p.options.now numbers made.summaries.items made.table };

    ghost all_done = { λ p seat kept.
        AreFirstPasses p.pieces.now p.options.now seat kept.items };

    ghost may_refuse = { λ p. max_total < total_of (whole_of p.pieces.now) };

    fn count(&self) -> usize {
        self.pieces.count()
    }

    fn begin(&self) -> Result<LocalSketches, AllocError> {
        let table = empty_table(self.alloc, self.options)?;
        let summaries = Vec::new(self.alloc);
        Ok(LocalSketches { summaries, table })
    }

    fn take(
        &self,
        made: LocalSketches,
        worker: u64,
        piece: usize,
    ) -> Result<LocalSketches, PieceFault> {
        self.gate.before(1, worker, piece as u64);
        let LocalSketches {
            mut summaries,
            table,
        } = made;
        let (summary, table) = self.summarise(table, piece)?;
        let Ok(()) = summaries.push((piece, summary)) else {
            return Err(PieceFault::Memory);
        };
        Ok(LocalSketches { summaries, table })
    }

    fn finish(
        &self,
        sums: &SharedSums,
        seat: &mut SumSeat,
        made: LocalSketches,
    ) -> Vec<(usize, Summary)> {
        cells_are_cell_sums();
        let LocalSketches { summaries, table } = made;
        add_numbers(sums, seat, table.cells());
        summaries
    }

    fn merge(
        &self,
        mut one: Vec<(usize, Summary)>,
        mut other: Vec<(usize, Summary)>,
    ) -> Result<Vec<(usize, Summary)>, PieceFault> {
        one.append(&mut other)?;
        Ok(one)
    }
}
