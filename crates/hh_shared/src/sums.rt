//! The sums that threads share, and the seats by which they claim and add.

ghost use Rattle.std.specs.Prelude.{◌≡◌, ◌+◌, ◌<◌, ◌≤◌, ◌↔◌, ◌∷◌, ◌++◌, ℕ, [], length, slice_index};
ghost use Rattle.std.specs.Prelude.{vec_len, IsOk, IfOk, IsTrue, MatchBool};
ghost use Rattle.hh_shared.specs.Numbers.{sum_at, IsDistinctBelow, HasAllBelow, AreDisjoint};
ghost use Rattle.hh_shared.specs.Seats.{max_claims, max_cells, fresh, seat_of_both};

use crate::rule::{Add, Claim, Lists, Look, SplitOff, TakeIn, Tallied};
use atomic_table::{Seat, Table};
use std::alloc::{AllocError, Global};
use std::marker::Model;

/// The most claims that sums have.
pub const MAX_CLAIMS: usize = 1024;

/// The most cells that sums have.
pub const MAX_CELLS: usize = 1_048_576;

/// Claims, numbered from 0, each of which one seat at most gets, and cells, numbered from 0, that
/// all seats add to. Threads share it by reference, and each steps through a seat of its own. Each
/// claim and each addition is one atomic step on one word: no call takes a lock, waits or tries
/// again. A contract sees which sums these are, and how many claims and cells they have.
#[derive(Drop)]
pub struct SharedSums {
    table: Table<u8, Lists, (usize, usize), Tallied, Global>,
    claims: usize,
    cells: usize,
    alloc: Global,
}

impl Model for SharedSums {
    ghost use Rattle.hh_shared.specs.Seats.{Sums, IsLaid};

    ghost Value = { Sums };

    ghost view = { λ sums. record {
      table = sums.table.shared.table_id;
      claims = sums.claims;
      cells = sums.cells;
    } };

    ghost invariant = { λ sums.
        IsLaid sums.table.shared.key sums.table.shared.table_id sums.claims sums.cells };
}

/// The right to claim and to add, which takes no bytes but a count. A contract sees whose seat it
/// is and three lists: the claims that it holds, the numbers that it found claimed, and what it
/// added.
///
/// A seat that is dropped keeps its claims: where it has any, no seat holds all from then on.
#[derive(Drop)]
pub struct SumSeat {
    seat: Seat<u8, Lists>,
    count: usize,
}

impl Model for SumSeat {
    ghost use Rattle.hh_shared.specs.Rule.{holding_of, IsCounted};
    ghost use Rattle.hh_shared.specs.Seats.{Holding};

    ghost Value = { Holding };

    ghost view = { λ seat. holding_of seat.seat.table_id seat.seat.me.0 };

    ghost invariant = { λ seat. IsCounted seat.seat.me seat.count };
}

impl SharedSums {
    /// Sums that are all 0, with nothing claimed, and a first seat with empty lists.
    pub fn new(
        alloc: Global,
        claims: usize,
        cells: usize,
    ) -> Result<(SharedSums, SumSeat), AllocError>
        requires claims { (0 < claims) × (claims ≤ max_claims) }
        requires cells { cells ≤ max_cells }
        ensures claims { IfOk result (λ made. made.0.claims ≡ claims) }
        ensures cells { IfOk result (λ made. made.0.cells ≡ cells) }
        ensures seat { IfOk result (λ made. made.1 ≡ fresh made.0) }
    {
        let zeros = vec![in alloc; 0u64; claims + cells]?;
        let (table, seat) = Table::of_words(alloc, zeros.as_slice(), &(claims, cells))?;
        Ok((
            SharedSums {
                table,
                claims,
                cells,
                alloc,
            },
            SumSeat { seat, count: 0 },
        ))
    }

    /// A new seat with empty lists. The seat that is lent stays as it was.
    pub fn split(&self, seat: &mut SumSeat) -> SumSeat
        requires seat { seat.old.sums ≡ self.now }
        ensures unchanged { seat.new ≡ seat.old }
        ensures split_off { result ≡ fresh self.now }
    {
        let half = self.table.shared.split_seat::<SplitOff>(&mut seat.seat);
        SumSeat {
            seat: half,
            count: 0,
        }
    }

    /// Claims a number for the seat, unless some seat has claimed it before: then the answer is
    /// false, and the seat has met the number.
    pub fn claim(&self, seat: &mut SumSeat, number: usize) -> bool
        requires seat { seat.old.sums ≡ self.now }
        requires number { number < self.now.claims }
        ensures claimed_or_met { MatchBool result
            (seat.new ≡ record seat.old { claims = seat.old.claims ++ number ∷ [] })
            (seat.new ≡ record seat.old { met = seat.old.met ++ number ∷ [] }) }
        ensures distinct { IsDistinctBelow self.now.claims seat.new.claims }
    {
        let found = self
            .table
            .shared
            .fetch_or::<Claim>(&mut seat.seat, number, 1);
        if found == 0 {
            seat.count += 1;
            return true;
        }
        false
    }

    /// Adds to a cell, modulo 2^64.
    pub fn add(&self, seat: &mut SumSeat, cell: usize, amount: u64)
        requires seat { seat.old.sums ≡ self.now }
        requires holds_a_claim { 0 < length seat.old.claims }
        requires cell { cell < self.now.cells }
        ensures { seat.new ≡ record seat.old { adds = seat.old.adds ++ (cell, amount) ∷ [] } }
    {
        self.table
            .shared
            .fetch_add::<Add>(&mut seat.seat, self.claims + cell, amount);
    }

    /// The first seat takes in the lists of the other. The two had no claim in common.
    pub fn join(&self, seat: &mut SumSeat, other: SumSeat)
        requires seat { seat.old.sums ≡ self.now }
        requires other { other.sums ≡ self.now }
        ensures joined { seat.new ≡ seat_of_both seat.old other }
        ensures disjoint { AreDisjoint seat.old.claims other.claims }
    {
        let SumSeat { seat: half, count } = other;
        self.table.shared.join_seat::<TakeIn>(&mut seat.seat, half);
        // A join tells nothing of the words: this step shows that the claims of both are distinct.
        self.table.shared.load::<Look>(&mut seat.seat, 0);
        seat.count += count;
    }

    /// Whether the seat holds every claim.
    pub fn holds_all(&self, seat: &SumSeat) -> bool
        requires seat { seat.now.sums ≡ self.now }
        ensures all { IsTrue result ↔ HasAllBelow self.now.claims seat.now.claims }
        ensures distinct { IsDistinctBelow self.now.claims seat.now.claims }
    {
        seat.count == self.claims
    }

    /// Each cell's exact sum, modulo 2^64, of the additions through all seats that were joined into
    /// this one. No other seat has added anything. After a refusal of memory the sums are given up.
    pub fn close(self, seat: SumSeat) -> Result<Vec<u64>, AllocError>
        requires seat { seat.sums ≡ self }
        requires all { HasAllBelow self.claims seat.claims }
        ensures len { IfOk result (λ sums. vec_len sums ≡ self.cells) }
        ensures none { self.cells ≡ 0 → IsOk result }
        ensures sums { IfOk result (λ sums. (cell : ℕ) → cell < self.cells
            → slice_index sums.items cell ≡ sum_at seat.adds cell) }
    {
        let SumSeat { seat, count: _ } = seat;
        let SharedSums {
            table,
            claims,
            cells,
            alloc,
        } = self;
        let mut sums = Vec::with_capacity(alloc, cells)?;
        let closed = table.close_with(seat);
        for cell in 0..cells {
            sums.push_reserved(closed.word(claims + cell));
        }
        closed.free();
        Ok(sums)
    }
}
