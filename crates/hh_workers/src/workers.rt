//! Workers by halves: half of them run in a thread of their own.

ghost use Rattle.std.specs.Prelude.{◌≡◌, ◌+◌, ◌^◌, ◌<◌, ◌≤◌, true, ℕ, List, IfOk, IfSome, IsErrOf};
ghost use Rattle.hh_stream.specs.Ranges.{in_range};
ghost use Rattle.hh_shared.specs.Seats.{Holding, fresh, max_cells, max_claims, seat_of_both};
ghost use Rattle.hh_workers.specs.Workers.{AreDone, AreSumsFor, BringBack, CanRun, HasEach};
ghost use Rattle.hh_workers.specs.Workers.{max_workers};

use crate::pass::{Pass, run_sequentially, run_worker};
use hh_shared::{SharedSums, SumSeat};
use hh_stream::PieceFault;
use std::alloc::Global;
use std::snapshot::Snapshot;
use std::sync::Wait;
use std::thread;
use std::thread::{Promise, Threads};

/// The most workers.
pub const MAX_WORKERS: u64 = 64;

/// What a thread of workers promises: a seat of these sums, and what the pass says of it.
#[derive(Drop)]
pub struct Promised<P: Pass> {
    sums: Snapshot<SharedSums>,
    pass: Snapshot<P>,
}

impl<P: Pass> Promise<Result<(SumSeat, P::Partial), PieceFault>> for Promised<P> {
    ghost kept_by = { λ p r. BringBack (P.all_done p.pass.value) (P.may_refuse p.pass.value)
        p.sums.value r };
}

/// Merges what two halves of the workers bring back: their seats and their parts. Where one failed,
/// its fault is the result.
fn join_halves<P: Pass>(
    sums: &SharedSums,
    pass: &P,
    one: Result<(SumSeat, P::Partial), PieceFault>,
    other: Result<(SumSeat, P::Partial), PieceFault>,
) -> Result<(SumSeat, P::Partial), PieceFault>
    requires one { BringBack (P.all_done pass.now) (P.may_refuse pass.now) sums.now one }
    requires other { BringBack (P.all_done pass.now) (P.may_refuse pass.now) sums.now other }
    ensures joined { IfOk one (λ a. IfOk other (λ b.
        IfOk result (λ r. r.0 ≡ seat_of_both a.0 b.0))) }
    ensures both { BringBack (P.all_done pass.now) (P.may_refuse pass.now) sums.now result }
{
    let (mut seat, kept) = one?;
    let (half, rest) = other?;
    sums.join(&mut seat, half);
    let both = pass.merge(kept, rest)?;
    Ok((seat, both))
}

/// Runs `count` workers with one seat, numbered from `first` on: where they are more than one, half
/// of them in a thread of their own.
#[cycle(workers)]
fn run_workers<R: Threads + Wait + Sync, P: Pass + Sync>(
    rt: &R,
    sums: &SharedSums,
    seat: SumSeat,
    pass: &P,
    first: u64,
    count: u64,
) -> Result<(SumSeat, P::Partial), PieceFault>
    requires count { 0 < count }
    requires numbers { first + count < 2 ^ 64 }
    requires fits { AreSumsFor (P.pieces pass.now) (P.cells pass.now) sums.now }
    requires seat { seat ≡ fresh sums.now }
    ensures done { BringBack (P.all_done pass.now) (P.may_refuse pass.now) sums.now result }
{
    if count == 1 {
        return run_worker(pass, sums, seat, first);
    }
    let there = count / 2;
    run_apart(rt, sums, seat, pass, first, there, count - there)
}

/// Runs `there` workers in a thread of their own, numbered from `first` on, and `here` more, if
/// any, in this one. Memory also where the system refuses a thread; all threads are joined.
#[cycle(workers)]
fn run_apart<R: Threads + Wait + Sync, P: Pass + Sync>(
    rt: &R,
    sums: &SharedSums,
    mut seat: SumSeat,
    pass: &P,
    first: u64,
    there: u64,
    here: u64,
) -> Result<(SumSeat, P::Partial), PieceFault>
    requires some { 0 < there }
    requires numbers { first + there + here < 2 ^ 64 }
    requires fits { AreSumsFor (P.pieces pass.now) (P.cells pass.now) sums.now }
    requires seat { seat ≡ fresh sums.now }
    ensures done { BringBack (P.all_done pass.now) (P.may_refuse pass.now) sums.now result }
{
    let next = first + there;
    let half = sums.split(&mut seat);
    thread::scope(
        thread::scope_env(),
        rt,
        move |scope| -> Result<(SumSeat, P::Partial), PieceFault>
            requires { let fits = AreSumsFor (P.pieces pass.now) (P.cells pass.now) sums.now in
                let can = CanRun R.row P.row P.Partial.row fits sums.now in
                can seat first there × (0 < here → can half next here) }
            ensures { BringBack (P.all_done pass.entry.now) (P.may_refuse pass.entry.now)
                sums.entry.now result }
        {
            let promise = Promised {
                sums: Snapshot::of(sums),
                pass: Snapshot::of(pass),
            };
            let front = move || -> Result<(SumSeat, P::Partial), PieceFault>
                requires { CanRun R.row P.row P.Partial.row
                    (AreSumsFor (P.pieces pass.now) (P.cells pass.now) sums.now)
                    sums.now seat first there }
                ensures { BringBack (P.all_done pass.entry.now) (P.may_refuse pass.entry.now)
                    sums.entry.now result }
            { run_workers(rt, sums, seat, pass, first, there) };
            let Ok(child) = scope.spawn_with(promise, front) else {
                return Err(PieceFault::Memory);
            };
            if here == 0 {
                return child.join(rt);
            }
            let other = run_workers(rt, sums, half, pass, next, here);
            join_halves(sums, pass, child.join(rt), other)
        },
    )
}

/// Has `workers` workers go over the pieces, with sums of their own: each cell's sum, and the
/// merged parts. Nothing where no worker claimed a piece, and no run is known to leave one.
pub fn share_work<R: Threads + Wait + Sync, P: Pass + Sync>(
    rt: &R,
    alloc: Global,
    pass: &P,
    cells: usize,
    workers: u64,
) -> Result<Option<(Vec<u64>, P::Partial)>, PieceFault>
    requires some { 0 < P.pieces pass.now }
    requires few { P.pieces pass.now ≤ max_claims }
    requires cells { cells ≡ P.cells pass.now }
    requires few_cells { cells ≤ max_cells }
    requires workers { in_range workers max_workers ≡ true }
    ensures done { IfOk result (λ found. IfSome found (λ r.
        AreDone (P.all_done pass.now) (P.pieces pass.now) cells r.0.items r.1)) }
    ensures refused { IsErrOf result PieceFault.Refused → P.may_refuse pass.now }
{
    let (sums, seat) = SharedSums::new(alloc, pass.count(), cells)?;
    let (seat, kept) = run_apart(rt, &sums, seat, pass, 0, workers, 0)?;
    if !sums.holds_all(&seat) {
        return Ok(None);
    }
    Ok(Some((sums.close(seat)?, kept)))
}

/// Takes what [`share_work`] found or, where that is nothing, makes it in the calling thread, in a
/// pass whose workers keep what they made. `workers` is the worker's number that the gate hears
/// then.
pub fn found_or_made<T: Send + Drop, P: Pass<Local = T, Partial = T>>(
    pass: &P,
    found: Option<(Vec<u64>, T)>,
    workers: u64,
) -> Result<T, PieceFault>
    requires found { IfSome found (λ r. AreDone (P.all_done pass.now) (P.pieces pass.now)
        (P.cells pass.now) r.0.items r.1) }
    requires kept { (seat : Holding) (made : T) → P.all_done pass.now seat made
        → P.is_made pass.now seat.claims made }
    ensures made { IfOk result (λ made. (numbers : List ℕ)
        × HasEach (P.pieces pass.now) numbers × P.is_made pass.now numbers made) }
    ensures refused { IsErrOf result PieceFault.Refused → P.may_refuse pass.now }
{
    match found {
        Some((_, made)) => Ok(made),
        None => run_sequentially(pass, workers),
    }
}
