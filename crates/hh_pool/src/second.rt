//! The second pass: the candidates' exact weights are counted.

ghost use Rattle.std.specs.Prelude.{◌≡◌, ◌+◌, ◌<◌, ◌++◌, List, length, sum};
ghost use Rattle.std.specs.Prelude.{IfOk, IsErrOf, OnOk};
ghost use Rattle.hh_stream.specs.Weights.{Entry, max_total, total_of};
ghost use Rattle.hh_stream.specs.Cuttings.{pieces_of, whole_of};
ghost use Rattle.hh_summaries.specs.Report.{weights_at};
ghost use Rattle.hh_shared.specs.Seats.{fresh};
ghost use Rattle.hh_pool.specs.Passes.{IsSecondPass};
ghost use Rattle.hh_workers.specs.Pieces.{piece_of};
ghost use Rattle.hh_pool.specs.Progress.{AreCounted};

use hh_counters::{Candidates, Counts};
use hh_shared::{SharedSums, SumSeat};
use hh_stream::laws::pieces_make_the_whole;
use hh_stream::{Cutting, PieceFault, Stream, TakeItems};
use hh_workers::{
    CutStream, Gate, Pass, Pieces, add_numbers, only_memory, run_sequentially, run_worker,
};
use std::alloc::{AllocError, Global};

/// What each worker of the second pass works on.
#[derive(Drop)]
pub(crate) struct SecondPass<'a, 's, 'c, G> {
    pub(crate) alloc: Global,
    pub(crate) pieces: &'a CutStream<'s>,
    pub(crate) gate: &'a G,
    pub(crate) candidates: &'c Candidates,
}

/// Runs one worker of the second pass: it claims pieces from the lowest on, and of each that it
/// gets it calls the gate and counts the candidates. It gathers their weights in numbers of its
/// own, which it adds to the shared cells, one for each candidate, at the end. It waits for nobody,
/// unless the gate does. Where memory is refused, the seat is lost.
pub fn second_pass<G: Gate>(
    alloc: Global,
    sums: &SharedSums,
    seat: SumSeat,
    stream: &Stream,
    cutting: &Cutting,
    candidates: &Candidates,
    gate: &G,
    worker: u64,
) -> Result<SumSeat, AllocError>
    requires same_len { sum cutting.now ≡ length stream.now }
    requires seat { seat ≡ fresh sums.now }
    requires claims { sums.now.claims ≡ length cutting.now }
    requires cells { sums.now.cells ≡ length candidates.now }
    ensures sums { IfOk result (λ seat. seat.sums ≡ sums.now) }
    ensures pass { IfOk result
        (λ seat. IsSecondPass (pieces_of cutting.now stream.now) candidates.now seat) }
{
    pieces_make_the_whole();
    // It bounds the weights of the pieces.
    let _total = stream.total();
    let pass = SecondPass {
        alloc,
        pieces: &CutStream::new(stream, cutting),
        gate,
        candidates,
    };
    let (seat, _) = only_memory(run_worker(&pass, sums, seat, worker))?;
    Ok(seat)
}

/// Makes the second pass by the calling thread, as where no worker claimed a piece: the weights of
/// the candidates, and the total of the stream where there are candidates. `gate` hears of the
/// number `workers`.
pub fn second_pass_sequentially<G: Gate>(
    alloc: Global,
    stream: &Stream,
    cutting: &Cutting,
    candidates: &Candidates,
    gate: &G,
    workers: u64,
) -> Result<(Vec<u64>, u64), AllocError>
    requires same_len { sum cutting.now ≡ length stream.now }
    ensures weights { IfOk result (λ r. r.0.items ≡ weights_at candidates.now stream.now) }
    ensures total { IfOk result
        (λ r. 0 < length candidates.now → r.1 ≡ total_of stream.now) }
{
    pieces_make_the_whole();
    // It bounds the weights of the pieces.
    let _total = stream.total();
    let pass = SecondPass {
        alloc,
        pieces: &CutStream::new(stream, cutting),
        gate,
        candidates,
    };
    only_memory(pass.sequential(workers))
}

impl<'a, 's, 'c, G: Gate> SecondPass<'a, 's, 'c, G> {
    // Counts the candidates of a piece, which isn't read where there are none.
    fn count_piece(&self, counts: &mut Counts, piece: usize) -> Result<(), PieceFault>
        requires { piece < length self.now.pieces.now }
        ensures counted { let items = piece_of self.now.pieces.now piece in OnOk result
            ((ys : List Entry) → AreCounted self.now.candidates.now ys counts.old
            → AreCounted self.now.candidates.now (ys ++ items) counts.new) }
        ensures refused { IsErrOf result PieceFault.Refused
            → max_total < counts.old.total + total_of (piece_of self.now.pieces.now piece) }
    {
        if self.candidates.is_empty() {
            return Ok(());
        }
        self.pieces.feed(self.alloc, piece, counts)
    }

    /// What the calling thread counts without sums: the candidates' weights in all pieces, and the
    /// total of all items where there are candidates. `workers` is what the gate hears.
    pub(crate) fn sequential(&self, workers: u64) -> Result<(Vec<u64>, u64), PieceFault>
        ensures weights { IfOk result (λ r.
            r.0.items ≡ weights_at self.now.candidates.now (whole_of self.now.pieces.now)) }
        ensures total { IfOk result (λ r. 0 < length self.now.candidates.now
            → r.1 ≡ total_of (whole_of self.now.pieces.now)) }
        ensures refused { IsErrOf result PieceFault.Refused
            → max_total < total_of (whole_of self.now.pieces.now) }
    {
        let counts = run_sequentially(self, workers)?;
        let total = counts.total();
        Ok((counts.into_weights(), total))
    }
}

impl<'a, 's, 'c, G: Gate> Pass for SecondPass<'a, 's, 'c, G> {
    type Local = Counts<'c>;

    type Partial = ();

    ghost use Rattle.std.specs.Prelude.{◌<◌, length};
    ghost use Rattle.hh_stream.specs.Cuttings.{whole_of};
    ghost use Rattle.hh_stream.specs.Weights.{max_total, total_of};
    ghost use Rattle.hh_pool.specs.Passes.{AreSecondPasses};
    ghost use Rattle.hh_pool.specs.Progress.{AreCounted};
    ghost use Rattle.hh_workers.specs.Pieces.{items_at};

    ghost pieces = { λ p. length p.pieces.now };

    ghost cells = { λ p. length p.candidates.now };

    ghost is_made = { λ p numbers counts.
        AreCounted p.candidates.now (items_at p.pieces.now numbers) counts };

    ghost all_done = { λ p seat _. AreSecondPasses p.pieces.now p.candidates.now seat };

    ghost may_refuse = { λ p. max_total < total_of (whole_of p.pieces.now) };

    fn count(&self) -> usize {
        self.pieces.count()
    }

    fn begin(&self) -> Result<Counts<'c>, AllocError> {
        Counts::new(self.alloc, self.candidates)
    }

    fn take(
        &self,
        mut made: Counts<'c>,
        worker: u64,
        piece: usize,
    ) -> Result<Counts<'c>, PieceFault> {
        self.gate.before(2, worker, piece as u64);
        self.count_piece(&mut made, piece)?;
        Ok(made)
    }

    fn finish(&self, sums: &SharedSums, seat: &mut SumSeat, made: Counts<'c>) {
        add_numbers(sums, seat, &made.into_weights());
    }

    fn merge(&self, _one: (), _other: ()) -> Result<(), PieceFault> {
        Ok(())
    }
}
