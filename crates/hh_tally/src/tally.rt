//! Sums of weights by key, lowered in batches.

ghost use Rattle.std.specs.Prelude.{◌≡◌, ℕ, ◌+◌, ◌*◌, ◌/◌, ◌<◌, ◌≤◌, ◌↔◌, ◌&&◌, Bool, List, IfOk, IfSome, IsTrue, MatchOption, filter, length, map, nat_lt, false, true, zip};
ghost use Rattle.std.specs.List.{AllByRecursion, IsDistinct};
ghost use Rattle.std.specs.List.Sorted.{IsStrictlySortedBy};
ghost use Rattle.std.specs.Map.{keys_of};
ghost use Rattle.hh_stream.specs.Ranges.{in_range};
ghost use Rattle.hh_stream.specs.Weights.{Bytes, Entry, key_cmp, max_total, same_key, total_of, weight_of};
ghost use Rattle.hh_summaries.specs.Counters.{IsHonest, Fits, exceeds, level, lower, max_k, over, tally};
ghost use Rattle.hh_summaries.specs.Report.{IsShare, heavy, rows_above, weights_at};
ghost use Rattle.hh_tally.specs.Tallies.{AreBounds, AreFlags, IsLoss, IsRoom, and_sure, is_sure};
ghost use Rattle.hh_tally.specs.Tallies.{contenders_of, empty_tally, merged_tally, pruned, tally_with};

use crate::laws::tallies_bound_weights;
use crate::lowering::{
    add_all, add_entry, flag_at, key_bytes, level_in, lower_if_over, sorted_above,
};
use crate::room::Room;
use hh_stream::{Key, KeyHash, MAX_TOTAL, PieceFault, Sketch, TakeItems};
use hh_summaries::{Summary, cut};
use indexmap::IndexMap;
use std::alloc::{AllocError, Global};
use std::marker::Model;

/// Sums of weights by key, exact until there are more keys than there is room for. Then a middle
/// counter is taken from each, those that are not above it are dropped, and what was taken is noted
/// as lost (Misra and Gries 1982, in batches as Anderson et al. 2017; two add up as in Agarwal et
/// al. 2012).
///
/// A key's counter is never above its weight, and at most [`lost`](Tally::lost) below it. An item
/// costs one look-up by hash. A newcomer's key is copied once, and each lowering, which walks over
/// all counters, follows as many newcomers as half the room or more. A contract sees the room, the
/// total, what was lost, and the counters in the order in which their keys came.
#[derive(Debug, Drop)]
pub struct Tally {
    room: Room,
    total: u64,
    lost: u64,
    bytes: usize,
    // Whether the tally is sure of each of the first keys; of the others it is while nothing is
    // lost.
    sure: Vec<bool>,
    index: IndexMap<Key, u64, KeyHash>,
}

impl Model for Tally {
    ghost use Rattle.std.specs.Prelude.{◌≤◌, length};
    ghost use Rattle.hh_tally.specs.Tallies.{TallyView, IsTally, view_of};

    ghost Value = { TallyView };

    ghost view = { λ t. view_of t.room t.total t.lost t.sure.items t.index.entries };

    ghost invariant = { λ t. IsTally t.room t.total t.lost t.bytes t.index.entries
        × (length t.sure.items ≤ length t.index.entries) };
}

// The most keys for which memory is taken at the start.
const FIRST_KEYS: usize = 4096;

impl Tally {
    /// A tally of no items, with this room. `hash` decides how fast keys are found, and nothing
    /// else: keys that others choose want one that is random.
    pub fn new(alloc: Global, room: Room, hash: KeyHash) -> Result<Tally, AllocError>
        requires { IsRoom room }
        ensures { IfOk result (λ t. t ≡ empty_tally room) }
    {
        let index = IndexMap::with_capacity_and_hasher(alloc, room.keys.min(FIRST_KEYS) + 1, hash)?;
        Ok(Tally {
            room,
            total: 0,
            lost: 0,
            bytes: 0,
            sure: Vec::new(alloc),
            index,
        })
    }

    /// The most by which a counter can be below its key's weight, and the most that a key without a
    /// counter can weigh.
    pub fn lost(&self) -> u64
        ensures lost { result ≡ self.now.lost }
        ensures loss { IsLoss self.now.room.few self.now.total self.now.lost self.now.counters }
    {
        self.lost
    }

    /// Whether each counter is its key's weight, and each key that came has one.
    pub fn is_exact(&self) -> bool
        ensures { IsTrue result ↔ (self.now.lost ≡ 0) }
    {
        self.lost == 0
    }

    /// How many keys have a counter.
    pub fn len(&self) -> usize
        ensures len { result ≡ length self.now.counters }
        ensures distinct { IsDistinct same_key (keys_of self.now.counters) }
        ensures few { result ≤ self.now.room.keys }
    {
        self.index.len()
    }

    /// The least number that at most `most` counters exceed. Of more counters than that it is the
    /// greatest but `most`, and else 0.
    pub fn level(&self, alloc: Global, most: usize) -> Result<u64, AllocError>
        ensures { IfOk result (λ t. t ≡ level self.now.counters most) }
    {
        level_in(alloc, &self.index, most)
    }

    /// The keys whose counter is above `t`, with their counters, by rising key.
    pub fn above(&self, alloc: Global, t: u64) -> Result<Vec<(Key, u64)>, AllocError>
        ensures entries { IfOk result
            (λ entries. entries.items ≡ filter (exceeds t) (tally self.now.counters)) }
        ensures count { IfOk result
            (λ entries. length entries.items ≡ over self.now.counters t) }
    {
        sorted_above(alloc, &self.index, t)
    }

    /// Whether the tally is sure of `key`, so that its counter lacks just what was lost. The key
    /// has kept a counter since before anything was lost, or never came and nothing was lost. Of a
    /// merged tally, both were sure of it.
    pub fn is_sure(&self, key: &Key) -> bool
        ensures { result ≡ is_sure self.now key.now }
    {
        match self.index.get_index_of(key) {
            Some(place) => flag_at(&self.sure, self.lost == 0, place),
            None => self.lost == 0,
        }
    }

    // The weight of `key`, if the tally is sure of it.
    pub(crate) fn sure_weight(&self, key: &Key) -> Option<u64>
        ensures sure { MatchOption result (is_sure self.now key.now ≡ false)
            (λ _. is_sure self.now key.now ≡ true) }
        ensures weight { (xs : List Entry) → AreBounds self.now xs
            → IfSome result (λ weight. weight ≡ weight_of key.now xs) }
    {
        if !self.is_sure(key) {
            return None;
        }
        match self.index.get(key) {
            Some(counter) => Some(*counter + self.lost),
            None => Some(self.lost),
        }
    }

    /// Gives the keys that can weigh more than p/q of the total, with their counters, by rising
    /// key. p/q is at most 1 and at least 1/h, where h is half of the room's `few`, rounded down,
    /// and q is at most 2^32.
    ///
    /// Each key that weighs more is among them, so that their weights make the report. Those of
    /// which the tally isn't sure ([`unsure`](Tally::unsure)) are to be counted.
    pub fn contenders(&self, alloc: Global, p: u64, q: u64) -> Result<Vec<(Key, u64)>, AllocError>
        requires share { IsShare p q }
        requires enough { q ≤ p * (self.now.room.few / 2) }
        ensures entries { IfOk result (λ entries. entries.items ≡ contenders_of p q self.now) }
        ensures rising { IfOk result (λ entries.
            IsStrictlySortedBy key_cmp (keys_of entries.items)) }
        ensures few { IfOk result (λ entries. length entries.items < self.now.room.few / 2) }
        ensures report { (xs : List Entry) → AreBounds self.now xs
            → IfOk result (λ entries. let keys = keys_of entries.items in
            rows_above p q (total_of xs) (zip keys (weights_at keys xs)) ≡ heavy xs p q) }
    {
        let t = least_reach(self.total, self.lost, p, q);
        let entries = sorted_above(alloc, &self.index, t)?;
        Ok(entries)
    }

    /// Whether both have one room, so that they can be merged.
    pub fn has_room_of(&self, other: &Tally) -> bool
        ensures { IsTrue result ↔ (self.now.room ≡ other.now.room) }
    {
        self.room == other.room
    }

    /// Merges `other`, which has the same room, into this tally. If memory is refused, this tally
    /// is lost; `other` is as it was.
    pub fn merge(self, alloc: Global, other: &Tally) -> Result<Tally, AllocError>
        requires room { self.room ≡ other.now.room }
        requires fits { self.total + other.now.total ≤ max_total }
        ensures { IfOk result (λ t. t ≡ merged_tally self other.now) }
    {
        let Tally {
            room,
            total,
            lost,
            bytes: _,
            sure,
            mut index,
        } = self;
        add_all(alloc, &mut index, &other.index)?;
        let mut sure = sure_of_both(alloc, &index, &sure, lost == 0, other)?;
        let lost = lost + other.lost;
        let bytes = key_bytes(&index);
        let (more, bytes) = lower_if_over(alloc, &mut index, &mut sure, lost == 0, &room, bytes)?;
        Ok(Tally {
            room,
            total: total + other.total,
            lost: lost + more,
            bytes,
            sure,
            index,
        })
    }

    /// The summary with the `k` greatest counters, from each of which the next one is taken. Where
    /// the room was for `k` it is as good as one that was made item by item.
    pub fn into_summary(self, alloc: Global, k: u64) -> Result<Summary, AllocError>
        requires k { in_range k max_k ≡ true }
        ensures summary { IfOk result (λ s. s ≡ pruned k self) }
        ensures honest { 2 * (k + 1) ≤ self.room.few → (xs : List Entry)
            → AreBounds self xs
            → IfOk result (λ s. IsHonest s.counters s.total xs s.k) }
    {
        let mut entries = sorted_above(alloc, &self.index, 0)?;
        cut(alloc, &mut entries, k as usize)?;
        Ok(Summary::from_entries(k, self.total, entries))
    }
}

impl TakeItems for Tally {
    ghost with_item = { tally_with };

    ghost weight_taken = { λ t. t.total };

    fn total(&self) -> u64 {
        self.total
    }

    fn take(&mut self, alloc: Global, key: &[u8], weight: u64) -> Result<(), AllocError> {
        if !add_entry(alloc, &mut self.index, key, weight)? {
            self.total += weight;
            return Ok(());
        }
        let bytes = self.bytes + key.len();
        let rest = self.lost == 0;
        match lower_if_over(
            alloc,
            &mut self.index,
            &mut self.sure,
            rest,
            &self.room,
            bytes,
        ) {
            Ok((lost, bytes)) => {
                self.total += weight;
                self.lost += lost;
                self.bytes = bytes;
                Ok(())
            }
            Err(refused) => {
                self.index.pop();
                Err(refused)
            }
        }
    }
}

impl Sketch for Tally {
    ghost is_of = { λ s xs t. (t.room ≡ s.room) × AreBounds t xs };

    fn fresh(&self, alloc: Global) -> Result<Tally, AllocError> {
        tallies_bound_weights();
        Tally::new(alloc, self.room, *self.index.hasher())
    }

    fn merge(self, alloc: Global, other: Tally) -> Result<Tally, PieceFault> {
        tallies_bound_weights();
        // The total is too large, where both have one room.
        if !self.has_room_of(&other) || other.total > MAX_TOTAL - self.total {
            return Err(PieceFault::Refused);
        }
        Ok(Tally::merge(self, alloc, &other)?)
    }

    fn follow_items(&self) {
        tallies_bound_weights();
    }
}

// Whether one tally is sure of `key`, as its `flag` says, and the other one too.
fn is_sure_too(flag: bool, other: &Tally, key: &Key) -> bool
    ensures { result ≡ (flag && is_sure other.now key.now) }
{
    flag && other.is_sure(key)
}

// Whether two tallies are sure of each key of the `index` that has the counters of both: the other
// one, and that of which `sure` and `rest` are the flags of these keys.
fn sure_of_both(
    alloc: Global,
    index: &IndexMap<Key, u64, KeyHash>,
    sure: &[bool],
    rest: bool,
    other: &Tally,
) -> Result<Vec<bool>, AllocError>
    ensures flags { let keys = keys_of index.now.entries in IfOk result (λ both.
        (test : Bytes → Bool) → AreFlags sure.now rest keys test
        → both.items ≡ map (and_sure test other.now) keys) }
    ensures count { IfOk result (λ both. length both.items ≡ length index.now.entries) }
{
    let mut both = Vec::new(alloc);
    for i in 0..index.len() {
        if let Some((key, _)) = index.get_index(i) {
            both.push(is_sure_too(flag_at(sure, rest, i), other, key))?;
        }
    }
    Ok(both)
}

// The number that the counter of a key exceeds if the key can weigh more than p/q of the total.
fn least_reach(total: u64, lost: u64, p: u64, q: u64) -> u64
    requires share { IsShare p q }
    requires bounded { total ≤ max_total }
    ensures { (n : ℕ) → 0 < n → nat_lt result n ≡ nat_lt (p * total) (q * (n + lost)) }
{
    let share = u128::from(p) * u128::from(total) / u128::from(q);
    (share as u64).saturating_sub(lost)
}
