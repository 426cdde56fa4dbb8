//! What the calling thread makes of all pieces where no worker claimed one. No run of workers is
//! known to leave a piece, so the passes alone don't try it.

use crate::fixtures::{assert_same, candidates_of, counter_of, four_items, has_cells, options};
use crate::meetings::Meeting;
use hh_counters::Summary;
use hh_pool::{first_pass_sequentially, second_pass_sequentially};
use hh_shared::{SharedSums, SumSeat};
use hh_stream::{Cutting, PieceFault};
use hh_workers::{Pass, found_or_made, run_sequentially};
use std::alloc::{AllocError, Global};
use std::process::Abort;

// A pass that lists 10 times the worker's number plus the piece's, and refuses piece 3.
#[derive(Drop)]
struct Listing {
    alloc: Global,
    count: usize,
}

impl Pass for Listing {
    type Local = Vec<u64>;

    type Partial = Vec<u64>;

    ghost pieces = { λ p. p.count };

    ghost cells = { λ _. 0 };

    ghost is_made = { λ _ _ _. Unit };

    ghost all_done = { λ _ _ _. Unit };

    ghost may_refuse = { λ _. Unit };

    fn count(&self) -> usize {
        self.count
    }

    fn begin(&self) -> Result<Vec<u64>, AllocError> {
        Ok(Vec::new(self.alloc))
    }

    fn take(&self, mut made: Vec<u64>, worker: u64, piece: usize) -> Result<Vec<u64>, PieceFault> {
        if piece == 3 {
            return Err(PieceFault::Refused);
        }
        match made.push(worker.wrapping_mul(10).wrapping_add(piece as u64)) {
            Ok(()) => Ok(made),
            Err(_) => Err(PieceFault::Memory),
        }
    }

    fn finish(&self, _sums: &SharedSums, _seat: &mut SumSeat, made: Vec<u64>) -> Vec<u64> {
        made
    }

    fn merge(&self, one: Vec<u64>, _other: Vec<u64>) -> Result<Vec<u64>, PieceFault> {
        Ok(one)
    }
}

#[test]
fn pieces_that_no_worker_claimed_are_made_alone(rt: HostRuntime) {
    let pass = Listing {
        alloc: rt.alloc(),
        count: 3,
    };
    let found = run_sequentially(&pass, 2).expect(&rt, "a pass");
    assert_same(&rt, found.as_slice(), [20, 21, 22].as_slice());
    let made = found_or_made(&pass, None, 5).expect(&rt, "a pass");
    assert_same(&rt, made.as_slice(), [50, 51, 52].as_slice());
}

#[test]
fn piece_that_is_refused_alone_refuses_the_pass(rt: HostRuntime) {
    let pass = Listing {
        alloc: rt.alloc(),
        count: 4,
    };
    let made = found_or_made(&pass, None, 1);
    assert_same(&rt, matches!(&made, Err(PieceFault::Refused)), true);
}

// The counters of a, b and c.
fn counters_of(rt: &(impl Abort + AllocGlobal), summary: &Summary) -> (u64, u64, u64) {
    let a = counter_of(rt, summary, b"a");
    let b = counter_of(rt, summary, b"b");
    (a, b, counter_of(rt, summary, b"c"))
}

// The four items are cut into a with 5 and b with 3, and c with 2 and a with 1.
#[test]
fn first_pass_is_made_sequentially(rt: HostRuntime) {
    let stream = four_items(&rt);
    let cutting = Cutting::even(rt.alloc(), stream.len(), 2).expect(&rt, "pieces");
    let (options, gate) = (options(&rt, 2, 3), Meeting::new(4, 0, 0, 0));
    let pass = first_pass_sequentially(rt.alloc(), &stream, &cutting, &options, &gate);
    let (summaries, table) = pass.expect(&rt, "a pass");
    assert_same(&rt, gate.first.heard(), (2 << 24, 0x0101));
    let mut counters = Vec::new(rt.alloc());
    for summary in &summaries {
        counters.push(counters_of(&rt, summary)).expect(&rt, "room");
    }
    assert_same(&rt, counters.as_slice(), [(5, 3, 0), (1, 0, 2)].as_slice());
    assert_same(&rt, has_cells(&table), true);
}

#[test]
fn second_pass_is_made_sequentially(rt: HostRuntime) {
    let stream = four_items(&rt);
    let cutting = Cutting::even(rt.alloc(), stream.len(), 2).expect(&rt, "pieces");
    let (candidates, gate) = (candidates_of(&rt), Meeting::new(4, 0, 0, 0));
    let pass = second_pass_sequentially(rt.alloc(), &stream, &cutting, &candidates, &gate, 3);
    let (weights, total) = pass.expect(&rt, "a pass");
    assert_same(&rt, gate.second.heard(), (2 << 24, 0x0101));
    assert_same(&rt, weights.as_slice(), [6, 3].as_slice());
    assert_same(&rt, total, 11);
}
