//! The pass in which each worker makes a sketch of the items of the pieces that it claims, and
//! these are merged.

ghost use Rattle.std.specs.Prelude.{◌≡◌, ◌<◌, ◌≤◌, true, length, IfOk, IsErrOf};
ghost use Rattle.hh_stream.specs.Cuttings.{max_pieces};
ghost use Rattle.hh_stream.specs.Ranges.{in_range};
ghost use Rattle.hh_workers.specs.Gathered.{GathersAll};
ghost use Rattle.hh_workers.specs.Pieces.{MayRefuse};
ghost use Rattle.hh_workers.specs.Workers.{max_workers};

use crate::pass::Pass;
use crate::pieces::Pieces;
use crate::workers::{found_or_made, share_work};
use hh_shared::{SharedSums, SumSeat};
use hh_stream::{PieceFault, Sketch};
use std::alloc::{AllocError, Global};
use std::sync::Wait;
use std::thread::Threads;

/// What each worker works on: the pieces, and a sketch with the settings of those that are made.
#[derive(Drop)]
struct GatherPass<'a, P, T> {
    alloc: Global,
    pieces: &'a P,
    start: &'a T,
}

impl<'a, P: Pieces, T: Sketch> Pass for GatherPass<'a, P, T> {
    type Local = T;

    type Partial = T;

    ghost use Rattle.std.specs.Prelude.{length};
    ghost use Rattle.hh_workers.specs.Gathered.{Gathers};
    ghost use Rattle.hh_workers.specs.Pieces.{MayRefuse};

    ghost pieces = { λ p. length (P.pieces p.pieces.now) };

    ghost cells = { λ _. 0 };

    ghost is_made = { λ p numbers t. let pieces = p.pieces.now in
        Gathers (T.is_of p.start.now) (P.known pieces) (P.pieces pieces) numbers t };

    ghost all_done = { λ p seat t. let pieces = p.pieces.now in
        Gathers (T.is_of p.start.now) (P.known pieces) (P.pieces pieces) seat.claims t };

    ghost may_refuse = { λ p. let pieces = p.pieces.now in P.known pieces
        → MayRefuse (P.refuses pieces) (P.pieces pieces) };

    fn count(&self) -> usize {
        self.pieces.count()
    }

    fn begin(&self) -> Result<T, AllocError> {
        self.start.fresh(self.alloc)
    }

    fn take(&self, mut made: T, _worker: u64, piece: usize) -> Result<T, PieceFault> {
        self.start.follow_items();
        self.pieces.feed(self.alloc, piece, &mut made)?;
        Ok(made)
    }

    fn finish(&self, _sums: &SharedSums, _seat: &mut SumSeat, made: T) -> T {
        made
    }

    fn merge(&self, one: T, other: T) -> Result<T, PieceFault> {
        one.merge(self.alloc, other)
    }
}

/// A sketch of the items of all pieces, with the settings of `start`. Each worker makes one of the
/// items of the pieces that it claims, and these are merged. Each piece is asked for once; where
/// one was claimed by no worker, the calling thread asks for all of them again.
///
/// It starts the workers, numbered from 0, in threads of their own, and waits for them. It answers
/// Refused where a piece was refused, or the weights of all pieces add up to more than
/// [`MAX_TOTAL`](hh_stream::MAX_TOTAL). Where the items aren't known, the sketch is one of some
/// items.
pub fn gather_pieces<R: Threads + Wait + Sync, P: Pieces + Sync, T: Sketch>(
    rt: &R,
    alloc: Global,
    pieces: &P,
    start: &T,
    workers: u64,
) -> Result<T, PieceFault>
    requires some { 0 < length (P.pieces pieces.now) }
    requires few { length (P.pieces pieces.now) ≤ max_pieces }
    requires workers { in_range workers max_workers ≡ true }
    ensures made { IfOk result (GathersAll (T.is_of start.now) (P.known pieces.now)
        (P.pieces pieces.now)) }
    ensures refused { IsErrOf result PieceFault.Refused → P.known pieces.now
        → MayRefuse (P.refuses pieces.now) (P.pieces pieces.now) }
{
    start.follow_items();
    let pass = GatherPass {
        alloc,
        pieces,
        start,
    };
    let found = share_work(rt, alloc, &pass, 0, workers)?;
    let made = found_or_made(&pass, found, workers)?;
    // It bounds the weight of the items.
    let _total = made.total();
    Ok(made)
}
