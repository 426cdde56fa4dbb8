//! The worked examples of shared sums, and four threads that add to them.

ghost use Rattle.std.specs.Prelude.{◌≡◌};
ghost use Rattle.std.specs.Thread.{IsSync};

use hh_shared::{MAX_CELLS, MAX_CLAIMS, SharedSums, SumSeat};
use std::alloc::AllocError;
use std::process::Abort;
use std::test::*;
use std::thread::{Threads, join};

// The sums, which the seat has to hold all claims of.
fn close_all(rt: &impl Abort, sums: SharedSums, seat: SumSeat) -> Result<Vec<u64>, AllocError>
    requires { seat.sums ≡ sums }
{
    assert!(rt; sums.holds_all(&seat));
    sums.close(seat)
}

#[test]
fn two_seats_close_with_the_sums_of_both(rt: HostRuntime) -> Result<(), Fail> {
    let (sums, mut first) = SharedSums::new(rt.alloc(), 2, 1)?;
    let mut second = sums.split(&mut first);
    assert!(rt; sums.claim(&mut first, 0));
    sums.add(&mut first, 0, 5);
    assert!(rt; sums.claim(&mut second, 1));
    sums.add(&mut second, 0, 7);
    assert!(rt; !sums.claim(&mut second, 0));
    assert!(rt; !sums.holds_all(&first) && !sums.holds_all(&second));
    sums.join(&mut first, second);
    assert_eq!(rt; close_all(&rt, sums, first)?.as_slice(), [12].as_slice());
    Ok(())
}

#[test]
fn a_claim_is_given_once_and_a_cell_wraps(rt: HostRuntime) -> Result<(), Fail> {
    let (sums, mut seat) = SharedSums::new(rt.alloc(), 1, 1)?;
    assert!(rt; sums.claim(&mut seat, 0));
    assert!(rt; !sums.claim(&mut seat, 0));
    sums.add(&mut seat, 0, u64::MAX);
    sums.add(&mut seat, 0, 2);
    assert_eq!(rt; close_all(&rt, sums, seat)?.as_slice(), [1].as_slice());
    Ok(())
}

#[test]
fn a_dropped_seat_keeps_its_claims(rt: HostRuntime) -> Result<(), Fail> {
    let (sums, mut seat) = SharedSums::new(rt.alloc(), 2, 0)?;
    let mut dropped = sums.split(&mut seat);
    assert!(rt; sums.claim(&mut dropped, 1));
    drop(dropped);
    assert!(rt; sums.claim(&mut seat, 0));
    assert!(rt; !sums.claim(&mut seat, 1));
    assert!(rt; !sums.holds_all(&seat));
    Ok(())
}

#[test]
fn sums_have_as_many_claims_and_cells_as_allowed(rt: HostRuntime) -> Result<(), Fail> {
    let (sums, mut seat) = SharedSums::new(rt.alloc(), MAX_CLAIMS, MAX_CELLS)?;
    assert!(rt; sums.claim(&mut seat, MAX_CLAIMS - 1));
    sums.add(&mut seat, MAX_CELLS - 1, 5);
    assert!(rt; !sums.claim(&mut seat, MAX_CLAIMS - 1));
    assert!(rt; !sums.holds_all(&seat));
    Ok(())
}

// Tries each claim, and adds the number of each that it got.
fn tally(sums: &SharedSums, mut seat: SumSeat) -> SumSeat
    requires seat { seat.sums ≡ sums.now }
    requires counts { (sums.now.claims ≡ 100) × (sums.now.cells ≡ 3) }
    ensures { result.sums ≡ sums.now }
{
    for number in 0..100 {
        if sums.claim(&mut seat, number) {
            sums.add(&mut seat, number % 3, number as u64);
        }
    }
    seat
}

// Tallies by two threads.
fn tally_by_two<R: Threads + Sync>(rt: &R, sums: &SharedSums, mut seat: SumSeat) -> SumSeat
    requires seat { seat.sums ≡ sums.now }
    requires counts { (sums.now.claims ≡ 100) × (sums.now.cells ≡ 3) }
    ensures { result.sums ≡ sums.now }
{
    let half = sums.split(&mut seat);
    let (mut one, other) = join(
        rt,
        || -> SumSeat
            requires { (seat.sums ≡ sums.now) × (sums.now.claims ≡ 100) × (sums.now.cells ≡ 3) }
            ensures { result.sums ≡ sums.entry.now }
        { tally(sums, seat) },
        || -> SumSeat
            requires { (half.sums ≡ sums.now) × (sums.now.claims ≡ 100) × (sums.now.cells ≡ 3) }
            ensures { result.sums ≡ sums.entry.now }
        { tally(sums, half) },
    );
    sums.join(&mut one, other);
    one
}

// Tallies by four threads.
fn tally_by_four<R: Threads + Sync>(rt: &R, sums: &SharedSums, mut seat: SumSeat) -> SumSeat
    requires seat { seat.sums ≡ sums.now }
    requires counts { (sums.now.claims ≡ 100) × (sums.now.cells ≡ 3) }
    ensures { result.sums ≡ sums.now }
{
    let half = sums.split(&mut seat);
    let (mut one, other) = join(
        rt,
        || -> SumSeat
            requires { IsSync R.row × (seat.sums ≡ sums.now)
                × (sums.now.claims ≡ 100) × (sums.now.cells ≡ 3) }
            ensures { result.sums ≡ sums.entry.now }
        { tally_by_two(rt, sums, seat) },
        || -> SumSeat
            requires { IsSync R.row × (half.sums ≡ sums.now)
                × (sums.now.claims ≡ 100) × (sums.now.cells ≡ 3) }
            ensures { result.sums ≡ sums.entry.now }
        { tally_by_two(rt, sums, half) },
    );
    sums.join(&mut one, other);
    one
}

#[test]
fn four_threads_claim_a_hundred_numbers(rt: HostRuntime) -> Result<(), Fail> {
    let (sums, seat) = SharedSums::new(rt.alloc(), 100, 3)?;
    let seat = tally_by_four(&rt, &sums, seat);
    let cells = close_all(&rt, sums, seat)?;
    assert_eq!(rt; cells.as_slice(), [1683, 1617, 1650].as_slice());
    Ok(())
}
