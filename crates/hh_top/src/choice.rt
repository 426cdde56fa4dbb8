//! The greatest keys, of those that a tally has counters for.

ghost use Rattle.std.specs.Prelude.{◌≡◌, ◌+◌, ◌*◌, ◌≤◌, List, IfErr, IfOk, length, take, true, zip};
ghost use Rattle.std.specs.Map.{keys_of, values_of};
ghost use Rattle.std.specs.List.Sorted.{IsStrictlySortedBy};
ghost use Rattle.hh_stream.specs.Weights.{Entry, key_cmp};
ghost use Rattle.hh_summaries.specs.Counters.{max_k};
ghost use Rattle.hh_summaries.specs.Report.{weights_at};
ghost use Rattle.hh_tally.specs.Tallies.{AreBounds};
ghost use Rattle.hh_top.specs.Top.{GreatestRefused, IsTopFault, chosen_of, counted_of, floor_of};
ghost use Rattle.hh_top.specs.Top.{rows_over, stand_out, top};
ghost use Rattle.hh_faults.specs.declared.error.ToolError.TheVariants.{Memory};

use hh_counters::{Candidates, Heavy, selected_rows};
use hh_faults::ToolError;
use hh_stream::{Key, KeyHash, TakeItems};
use hh_tally::Tally;
use std::alloc::{AllocError, Global};
use std::marker::Model;

/// A tally, with what its counters tell of the `n` greatest keys: which keys can be among them, of
/// which at most `k` are counted.
///
/// A contract sees `n`, `k` and the tally.
#[derive(Debug, Drop)]
pub struct Shortlist {
    n: u64,
    k: u64,
    tally: Tally,
    // The n-th greatest counter, and 0 where there are fewer.
    counter: u64,
    // The most that a key can weigh that isn't counted, where `k` keys are.
    most: u64,
}

impl Model for Shortlist {
    ghost use Rattle.std.specs.Prelude.{◌≡◌, ◌+◌, ◌*◌, ◌≤◌};
    ghost use Rattle.hh_summaries.specs.Counters.{max_k};
    ghost use Rattle.hh_top.specs.Top.{ShortlistView, most_uncounted, nth_counter};

    ghost Value = { ShortlistView };

    ghost view = { λ list. record { n = list.n; k = list.k; tally = list.tally } };

    ghost invariant = { λ list. (2 * (list.k + 1) ≤ list.tally.room.few) × (list.k ≤ max_k)
        × (list.counter ≡ nth_counter list.n list.tally)
        × (list.most ≡ most_uncounted list.k list.tally) };
}

impl Shortlist {
    /// Looks through the counters of a tally for the `n` greatest keys, of which at most `k` are to
    /// be counted. The tally has room for a summary with `k` counters.
    pub fn of(alloc: Global, tally: Tally, n: u64, k: u64) -> Result<Shortlist, AllocError>
        requires share { 2 * (k + 1) ≤ tally.room.few }
        requires most { k ≤ max_k }
        ensures { IfOk result (λ list. list ≡ record { n = n; k = k; tally = tally }) }
    {
        // They bound what was lost and the counters.
        let _total = tally.total();
        let counter = tally.level(alloc, n.saturating_sub(1) as usize)?;
        let other = tally.level(alloc, k as usize)?;
        let most = tally.lost() + other;
        Ok(Shortlist {
            n,
            k,
            tally,
            counter,
            most,
        })
    }

    /// The tally.
    pub fn tally(&self) -> &Tally
        ensures tally { result.now ≡ self.now.tally }
        ensures share { 2 * (self.now.k + 1) ≤ self.now.tally.room.few }
    {
        &self.tally
    }

    /// Whether the `n` greatest keys are among those that [`choice`](Shortlist::choice) gives to be
    /// counted, whatever these then weigh: `n` counters are above what any other key can weigh.
    pub fn stands_out(&self) -> bool
        ensures { result ≡ stand_out self.now }
    {
        self.counter > self.most
    }

    /// A weight that the `n` greatest keys exceed, as far as counters tell: what a key can weigh
    /// that isn't counted, or one less than the n-th greatest counter.
    fn floor(&self) -> u64
        ensures { result ≡ floor_of self.now }
    {
        self.most.max(self.counter.saturating_sub(1))
    }

    /// The counters of the keys that can be among the `n` greatest: those of the tally that can
    /// weigh more than what a key without a counter can, and no less than the n-th greatest
    /// counter.
    fn chosen(&self, alloc: Global) -> Result<Vec<(Key, u64)>, AllocError>
        ensures entries { IfOk result (λ entries. entries.items ≡ chosen_of self.now) }
        ensures few { IfOk result (λ entries. length entries.items ≤ self.now.k) }
        ensures rising { IfOk result (λ entries.
            IsStrictlySortedBy key_cmp (keys_of entries.items)) }
        ensures most { self.now.k ≤ max_k }
    {
        let floor = self.floor();
        let entries = self
            .tally
            .above(alloc, floor.saturating_sub(self.tally.lost()))?;
        Ok(entries)
    }

    /// The keys to count for the `n` greatest, hashed by `hash`: those that can be among them, but
    /// that the tally isn't sure of.
    pub fn choice(&self, alloc: Global, hash: KeyHash) -> Result<Candidates, AllocError>
        ensures keys { IfOk result (λ choice. choice ≡ keys_of (counted_of self.now)) }
        ensures few { IfOk result (λ choice. length choice ≤ self.now.k) }
        ensures most { self.now.k ≤ max_k }
    {
        let entries = self.chosen(alloc)?;
        let unsure = self.tally.unsure(alloc, &entries)?;
        Candidates::of_entries(alloc, &unsure, hash)
    }

    /// The `n` greatest keys of the items that the tally is of, where the keys of
    /// [`choice`](Shortlist::choice) were `counted` in the same items.
    ///
    /// They are certain where `n` keys weigh more than what a key can that isn't among the chosen,
    /// or where no such key weighs anything. Else the refusal has how many keys weigh more than
    /// that, and that weight. Where the list [`stands_out`](Shortlist::stands_out) they are never
    /// refused.
    pub fn greatest(&self, alloc: Global, counted: &[u64]) -> Result<Vec<Heavy>, ToolError>
        requires counted { length counted.now ≡ length (counted_of self.now) }
        ensures rows { IfOk result (λ rows. (xs : List Entry) → AreBounds self.now.tally xs
            → counted.now ≡ weights_at (keys_of (counted_of self.now)) xs
            → rows.items ≡ top self.now.n xs) }
        ensures refused { IfErr result (λ fault. (xs : List Entry) → AreBounds self.now.tally xs
            → counted.now ≡ weights_at (keys_of (counted_of self.now)) xs
            → GreatestRefused xs self.now.n self.now.k fault) }
        ensures sure { stand_out self.now ≡ true
            → IfErr result (λ fault. (xs : List Entry) → AreBounds self.now.tally xs
            → counted.now ≡ weights_at (keys_of (counted_of self.now)) xs → fault ≡ Memory) }
        ensures kind { IfErr result IsTopFault }
    {
        let floor = self.floor();
        // It bounds what was lost.
        let _lost = self.tally.lost();
        let entries = self.chosen(alloc)?;
        let weights = self.tally.weights(alloc, &entries, counted)?;
        let rows = rows_over(alloc, entries, &weights, floor)?;
        if floor > 0 && (rows.len() as u64) < self.n {
            return Err(ToolError::TopUncertain {
                certain: rows.len() as u64,
                most: floor,
            });
        }
        Ok(first_of(rows, self.n))
    }

    /// The `n` greatest keys of the items that the tally is of, where it lost nothing: then its
    /// counters are the weights, and no key has to be counted.
    pub fn greatest_counters(&self, alloc: Global) -> Result<Vec<Heavy>, AllocError>
        ensures { IfOk result (λ rows. (xs : List Entry) → AreBounds self.now.tally xs
            → self.now.tally.lost ≡ 0 → rows.items ≡ top self.now.n xs) }
    {
        let floor = self.counter.saturating_sub(1);
        let entries = self.tally.above(alloc, floor)?;
        let counters = counters_in(alloc, &entries)?;
        let rows = rows_over(alloc, entries, &counters, floor)?;
        Ok(first_of(rows, self.n))
    }
}

/// The keys of `entries` that weigh more than `floor`, where these are their `weights`, by falling
/// weight and then by rising key.
fn rows_over(
    alloc: Global,
    entries: Vec<(Key, u64)>,
    weights: &[u64],
    floor: u64,
) -> Result<Vec<Heavy>, AllocError>
    requires rising { IsStrictlySortedBy key_cmp (keys_of entries.items) }
    requires count { length weights.now ≡ length entries.items }
    ensures { IfOk result (λ rows.
        rows.items ≡ rows_over floor (zip (keys_of entries.items) weights.now)) }
{
    let keys = keys_in(alloc, entries)?;
    let rows = selected_rows(alloc, &keys, weights, 1, 1, floor)?;
    Ok(rows)
}

/// The keys of entries.
fn keys_in(alloc: Global, entries: Vec<(Key, u64)>) -> Result<Vec<Key>, AllocError>
    ensures { IfOk result (λ keys. keys.items ≡ keys_of entries.items) }
{
    entries.into_iter().map(|entry| entry.0).collect(alloc)
}

/// The counters of entries.
fn counters_in(alloc: Global, entries: &[(Key, u64)]) -> Result<Vec<u64>, AllocError>
    ensures { IfOk result (λ counters. counters.items ≡ values_of entries.now) }
{
    entries.iter().map(|entry| entry.1).collect(alloc)
}

/// The first `n` rows, or all where they are fewer.
fn first_of(mut rows: Vec<Heavy>, n: u64) -> Vec<Heavy>
    ensures { result.items ≡ take n rows.items }
{
    if n < rows.len() as u64 {
        rows.truncate(n as usize);
    }
    rows
}
