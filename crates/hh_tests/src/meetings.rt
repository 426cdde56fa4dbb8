//! A gate that hears of each piece, and that only workers at once can pass.

use crate::fixtures::{assert_same, is_as_ever};
use hh_pool::{Gate, Plan};
use std::process::Abort;
use std::sync::Wait;
use std::sync::atomic::AtomicU64;
use std::sync::atomic::Ordering::SeqCst;
use std::thread::{Threads, yield_now};

// The calls of a pass: one in the digit of its piece, and one in that of its worker, to the base of
// 256.
#[derive(Drop)]
pub(crate) struct Calls {
    pub(crate) pieces: AtomicU64,
    pub(crate) workers: AtomicU64,
}

// Holds the pieces below `held` in each pass until all `wanted` calls of that pass have come, for
// `limit` turns at most.
#[derive(Drop)]
pub(crate) struct Meeting {
    pub(crate) first: Calls,
    pub(crate) second: Calls,
    wanted: u64,
    held: u64,
    limit: u64,
    reached: AtomicU64,
    strangers: AtomicU64,
    workers: u64,
}

// One call for each of two, four, seven and eight pieces: a byte of the number is a piece's calls.
const TWO: u64 = 0x0101;

const FOUR: u64 = 0x0101_0101;

const SEVEN: u64 = 0x01_0101_0101_0101;

const EIGHT: u64 = 0x0101_0101_0101_0101;

// One in this digit.
fn digit(number: u64) -> u64 {
    1u64 << (8 * (number % 8))
}

impl Calls {
    fn new() -> Calls {
        Calls {
            pieces: AtomicU64::new(0),
            workers: AtomicU64::new(0),
        }
    }

    // The digits of the workers and of the pieces.
    pub(crate) fn heard(&self) -> (u64, u64) {
        (self.workers.load(SeqCst), self.pieces.load(SeqCst))
    }
}

impl Meeting {
    pub(crate) fn new(workers: u64, wanted: u64, held: u64, limit: u64) -> Meeting {
        Meeting {
            first: Calls::new(),
            second: Calls::new(),
            wanted,
            held,
            limit,
            reached: AtomicU64::new(0),
            strangers: AtomicU64::new(0),
            workers,
        }
    }

    fn calls(&self, pass: u64) -> &Calls {
        if pass == 1 { &self.first } else { &self.second }
    }

    fn hold(&self, pieces: &AtomicU64) {
        for _ in 0..self.limit {
            if pieces.load(SeqCst) >= self.wanted {
                return;
            }
            yield_now();
        }
        self.reached.store(1, SeqCst);
    }

    // Whether each piece was called for once in each pass, by a worker, and each of eight workers
    // called once.
    fn is_exact(&self) -> bool {
        let pieces = (
            self.first.pieces.load(SeqCst),
            self.second.pieces.load(SeqCst),
        );
        pieces == (self.wanted, self.wanted)
            && self.strangers.load(SeqCst) == 0
            && (self.workers < 8 || self.heard_eight())
    }

    // Whether each of eight workers called once in each pass.
    fn heard_eight(&self) -> bool {
        let workers = (
            self.first.workers.load(SeqCst),
            self.second.workers.load(SeqCst),
        );
        workers == (EIGHT, EIGHT)
    }
}

impl Gate for Meeting {
    fn before(&self, pass: u64, worker: u64, piece: u64) {
        let calls = self.calls(pass);
        calls.workers.fetch_add(digit(worker), SeqCst);
        calls.pieces.fetch_add(digit(piece), SeqCst);
        if worker >= self.workers {
            self.strangers.fetch_add(1, SeqCst);
        }
        if piece < self.held {
            self.hold(&calls.pieces);
        }
    }
}

// Whether the four items in even pieces, for k = 2, have the outcome that they always have, with
// one call of the gate for each piece and pass.
fn meets<R: AllocGlobal + Threads + Wait + Abort + Sync>(
    rt: &R,
    pieces: usize,
    gate: &Meeting,
) -> bool {
    assert!(rt; 1 <= pieces && pieces <= 8);
    let plan = Plan::chain(rt.alloc(), pieces).expect(rt, "a plan");
    is_as_ever(rt, &plan, gate.workers, gate) && gate.is_exact()
}

// Each of eight workers has one piece in hand, so each one's number comes.
#[test]
fn workers_meet_at_once(rt: HostRuntime) {
    for (pieces, workers, wanted, held, limit, reached) in &[
        // pieces, workers, calls to wait for, pieces held, turns, and whether these run out
        (2, 2, TWO, 1, 10_000_000, 0),
        (2, 1, TWO, 1, 1_000, 1),
        (4, 4, FOUR, 4, 10_000_000, 0),
        (8, 8, EIGHT, 8, 10_000_000, 0),
        (7, 4, SEVEN, 0, 0, 0),
    ] {
        let gate = Meeting::new(*workers, *wanted, *held, *limit);
        assert!(rt; meets(&rt, *pieces, &gate), "{workers} workers");
        assert_same(&rt, gate.reached.load(SeqCst), *reached);
    }
}
