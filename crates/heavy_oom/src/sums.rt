//! The calls of `hh_shared`: sums that several seats add to.

ghost use Rattle.std.specs.Prelude.{◌≡◌};

use crate::lab::{Lab, Said, marked, no_such_call, told};
use hh_shared::{SharedSums, SumSeat};
use std::alloc::AllocError;
use std::test::Fail;

pub fn call(lab: &Lab, name: &str) -> Result<Said, Fail> {
    match name {
        "SharedSums::new" => sums_new(lab),
        "SharedSums::close" => sums_closed(lab),
        "SharedSums seats" => seats(lab),
        _ => Err(no_such_call(name)),
    }
}

fn sums_new(lab: &Lab) -> Result<Said, Fail> {
    match marked!(lab, SharedSums::new(lab.alloc, 2, 1)) {
        Err(_) => lab.refused(),
        Ok((sums, seat)) => lab.answer(sums.holds_all(&seat)),
    }
}

// One seat claims the only number, adds twice to the first of two cells, and reads the sums.
fn sums_closed(lab: &Lab) -> Result<Said, Fail> {
    let (sums, mut seat) = SharedSums::new(lab.alloc, 1, 2)?;
    if sums.claim(&mut seat, 0) {
        sums.add(&mut seat, 0, 5);
        sums.add(&mut seat, 0, 3);
    }
    if !sums.holds_all(&seat) {
        return Err(Fail::new("a seat claims what no other did"));
    }
    told!(lab, sums.close(seat), AllocError)
}

fn seats(lab: &Lab) -> Result<Said, Fail> {
    let (sums, mut seat) = SharedSums::new(lab.alloc, 2, 1)?;
    two_seats(lab, &sums, &mut seat)
}

// The calls on seats that take no memory: a second seat is split off, each claims a number that the
// other didn't, one meets the other's, and the first takes in the second.
fn two_seats(lab: &Lab, sums: &SharedSums, seat: &mut SumSeat) -> Result<Said, Fail>
    requires seat { seat.old.sums ≡ sums.now }
    requires claims { sums.now.claims ≡ 2 }
    requires cells { sums.now.cells ≡ 1 }
{
    lab.begin();
    let mut other = sums.split(seat);
    let has_first = sums.claim(seat, 0);
    if has_first {
        sums.add(seat, 0, 5);
    }
    let has_second = sums.claim(&mut other, 1);
    let meets_first = !sums.claim(&mut other, 0);
    sums.join(seat, other);
    let holds_all = sums.holds_all(seat);
    lab.end();
    lab.answer(format_args!("{has_first} {has_second} {meets_first} {holds_all}"))
}
