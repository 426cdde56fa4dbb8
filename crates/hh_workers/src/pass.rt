//! What workers that share sums run.

ghost use Rattle.std.specs.Prelude.{◌≡◌, ◌+◌, ◌<◌, ◌≤◌, ◌++◌, ◌∷◌, [], ℕ, List, length, slice_index};
ghost use Rattle.std.specs.Prelude.{IfOk, IsErrOf};
ghost use Rattle.std.specs.List.Sorted.{IsStrictlyIncreasing};
ghost use Rattle.hh_shared.specs.Numbers.{AreDisjoint, IsDistinctBelow, cell_total};
ghost use Rattle.hh_shared.specs.Seats.{Sums, Holding, fresh, seat_of_both};
ghost use Rattle.hh_workers.specs.Workers.{AreSumsFor, HasEach};
ghost use Rattle.hh_workers.specs.Workers.{HasTriedUpTo};

use hh_shared::{SharedSums, SumSeat};
use hh_stream::PieceFault;
use std::alloc::AllocError;

/// A pass over pieces, of which each worker makes something by itself.
pub trait Pass {
    /// What a worker has made of its pieces so far.
    type Local: Send + Drop;
    /// The part of the result that a worker gives beside its seat.
    type Partial: Send + Drop;

    /// How many pieces there are.
    ghost pieces: { Self → ℕ };
    /// How many cells the sums have.
    ghost cells: { Self → ℕ };
    /// Whether this was made of the pieces with these numbers, one after the other.
    ghost is_made: { Self → List ℕ → Self.Local → Type 0 };
    /// What the joined seat of workers and their merged part say of the pieces that they claimed.
    ghost all_done: { Self → Holding → Self.Partial → Type 0 };
    /// What is known where a piece was refused, or the weights of all are too large.
    ghost may_refuse: { Self → Type 0 };

    /// How many pieces there are.
    fn count(&self) -> usize
        ensures { result ≡ pieces self.now };

    /// Makes the start, of no piece.
    fn begin(&self) -> Result<Self::Local, AllocError>
        ensures { IfOk result (is_made self.now []) };

    /// Adds one more piece, of which the gate hears first.
    fn take(&self, made: Self::Local, worker: u64, piece: usize) -> Result<Self::Local, PieceFault>
        requires { piece < pieces self.now }
        ensures more { IfOk result (λ more. (numbers : List ℕ)
            → IsDistinctBelow (pieces self.now) (numbers ++ piece ∷ [])
            → is_made self.now numbers made → is_made self.now (numbers ++ piece ∷ []) more) }
        ensures refused { IsErrOf result PieceFault.Refused → (numbers : List ℕ)
            → IsDistinctBelow (pieces self.now) (numbers ++ piece ∷ [])
            → is_made self.now numbers made → may_refuse self.now };

    /// Adds what a worker made of its pieces to the sums, and gives its part of the result.
    fn finish(&self, sums: &SharedSums, seat: &mut SumSeat, made: Self::Local) -> Self::Partial
        requires seat { seat.old.sums ≡ sums.now }
        requires fits { AreSumsFor (pieces self.now) (cells self.now) sums.now }
        requires tried { HasTriedUpTo (pieces self.now) (pieces self.now) seat.old }
        requires made { is_made self.now seat.old.claims made }
        ensures unchanged { seat.new ≡ record seat.old { adds = seat.new.adds } }
        ensures done { all_done self.now seat.new result };

    /// Merges the parts of two workers, whose seats have no claim in common.
    fn merge(&self, one: Self::Partial, other: Self::Partial) -> Result<Self::Partial, PieceFault>
        ensures both { IfOk result (λ both. (a b : Holding) → AreDisjoint a.claims b.claims
            → all_done self.now a one → all_done self.now b other
            → all_done self.now (seat_of_both a b) both) }
        ensures refused { IsErrOf result PieceFault.Refused → (a b : Holding)
            → AreDisjoint a.claims b.claims
            → all_done self.now a one → all_done self.now b other → may_refuse self.now };
}

/// Runs the worker with this number: it claims pieces from the lowest on, takes those that no other
/// worker has claimed, and gives its part of the result.
pub fn run_worker<P: Pass>(
    pass: &P,
    sums: &SharedSums,
    mut seat: SumSeat,
    worker: u64,
) -> Result<(SumSeat, P::Partial), PieceFault>
    requires fits { AreSumsFor (P.pieces pass.now) (P.cells pass.now) sums.now }
    requires seat { seat ≡ fresh sums.now }
    ensures sums { IfOk result (λ r. r.0.sums ≡ sums.now) }
    ensures rising { IfOk result (λ r. IsStrictlyIncreasing r.0.claims) }
    ensures all_done { IfOk result (λ r. P.all_done pass.now r.0 r.1) }
    ensures refused { IsErrOf result PieceFault.Refused → P.may_refuse pass.now }
{
    let mut made = pass.begin()?;
    for piece in 0..pass.count() {
        if !sums.claim(&mut seat, piece) {
            continue;
        }
        made = pass.take(made, worker, piece)?;
    }
    let kept = pass.finish(sums, &mut seat, made);
    Ok((seat, kept))
}

/// Makes the result of all pieces in the calling thread, without sums. `workers` is the worker's
/// number that the gate hears.
pub fn run_sequentially<P: Pass>(pass: &P, workers: u64) -> Result<P::Local, PieceFault>
    ensures made { IfOk result (λ made. (numbers : List ℕ)
        × HasEach (P.pieces pass.now) numbers × P.is_made pass.now numbers made) }
    ensures refused { IsErrOf result PieceFault.Refused → P.may_refuse pass.now }
{
    let mut made = pass.begin()?;
    for piece in 0..pass.count() {
        made = pass.take(made, workers, piece)?;
    }
    Ok(made)
}

/// Adds to each cell the number at its place, those that are not 0.
pub fn add_numbers(sums: &SharedSums, seat: &mut SumSeat, numbers: &[u64])
    requires seat { seat.old.sums ≡ sums.now }
    requires cells { length numbers.now ≤ sums.now.cells }
    requires holds_a_claim { (cell : ℕ) → 0 < slice_index numbers.now cell
        → 0 < length seat.old.claims }
    ensures unchanged { seat.new ≡ record seat.old { adds = seat.new.adds } }
    ensures added { (cell : ℕ) → cell_total cell seat.new.adds
        ≡ cell_total cell seat.old.adds + slice_index numbers.now cell }
{
    for (cell, &number) in numbers.iter().enumerate() {
        if number != 0 {
            sums.add(seat, cell, number);
        }
    }
}
