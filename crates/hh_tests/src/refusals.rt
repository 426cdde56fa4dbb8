//! Pieces that are refused.

ghost use Rattle.std.specs.Prelude.{◌≡◌};

use crate::fixtures::{candidates_of, four_items};
use hh_counters::Counts;
use hh_pool::{CutStream, MAX_WORKERS, PieceFault, Pieces};
use hh_stream::{Cutting, TakeItems, in_range};
use hh_workers::gather_pieces;
use std::alloc::Global;
use std::process::Abort;
use std::sync::Wait;
use std::thread::Threads;

// The pieces of a stream, of which the one with this number is refused.
#[derive(Drop)]
struct Torn<'a> {
    pieces: CutStream<'a>,
    at: usize,
}

impl<'a> Pieces for Torn<'a> {
    ghost pieces = { λ torn. torn.pieces };

    ghost known = { λ _. Unit };

    ghost refuses = { λ torn piece. piece ≡ torn.at };

    fn count(&self) -> usize {
        self.pieces.count()
    }

    fn feed<T: TakeItems>(
        &self,
        alloc: Global,
        piece: usize,
        taker: &mut T,
    ) -> Result<(), PieceFault> {
        if piece == self.at {
            return Err(PieceFault::Refused);
        }
        self.pieces.feed(alloc, piece, taker)
    }
}

// What is counted of the candidates a and b in four pieces, of which this one is refused, and the
// total.
fn counted_but_for<R: AllocGlobal + Threads + Wait + Abort + Sync>(
    rt: &R,
    at: usize,
    workers: u64,
) -> Result<(Vec<u64>, u64), PieceFault> {
    let (stream, candidates) = (four_items(rt), candidates_of(rt));
    let cutting = Cutting::even(rt.alloc(), stream.len(), 4).expect(rt, "pieces");
    let pieces = Torn {
        pieces: CutStream::new(&stream, &cutting),
        at,
    };
    assert!(rt; in_range(workers, MAX_WORKERS));
    let start = Counts::new(rt.alloc(), &candidates).expect(rt, "counts");
    let counts = gather_pieces(rt, rt.alloc(), &pieces, &start, workers)?;
    let total = counts.total();
    Ok((counts.into_weights(), total))
}

#[test]
fn torn_piece_is_refused(rt: HostRuntime) {
    for (at, workers) in &[(0, 1), (3, 1), (0, 2), (3, 2), (2, 7)] {
        let refused = counted_but_for(&rt, *at, *workers).err();
        assert!(rt;
            refused == Some(PieceFault::Refused),
            "piece {at}, {workers} workers"
        );
    }
}

#[test]
fn pieces_that_are_whole_are_counted(rt: HostRuntime) {
    for workers in &[1, 2, 7] {
        let (weights, total) = counted_but_for(&rt, 4, *workers).expect(&rt, "counts");
        assert!(rt;
            total == 11 && weights.as_slice() == [6, 3].as_slice(),
            "{workers} workers"
        );
    }
}
