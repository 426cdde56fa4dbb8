//! Space-Saving in buckets, which are put right only before a key is dropped.

ghost use Rattle.std.specs.Prelude.{◌≡◌, ℕ, true, ◌+◌, ◌^◌, ◌<◌, ◌≤◌, ◌↔◌, [], IfSome, IsOk, IfOk, IfErr, IsErrOf, OnOk, OnErr, None, Some, filter, length, false};
ghost use Rattle.std.specs.Map.{keys_of, lookup};
ghost use Rattle.std.specs.List.{IsDistinct};
ghost use Rattle.indexmap.specs.IndexMap.{get as index_get, index_of, IsUnique, Updates};
ghost use Rattle.hh_stream.specs.Weights.{Bytes, max_key_len, same_key, total_of, weight_of};
ghost use Rattle.hh_stream.specs.Ranges.{in_range};
ghost use Rattle.hh_summaries.specs.Counters.{max_k, exceeds, tally, least_counter, lower};
ghost use Rattle.hh_summaries.specs.Faults.{IsNewFault};
ghost use Rattle.std.specs.BTreeSet.{IsUnchanged, Updates as SetUpdates, insert_key};
ghost use Rattle.hh_counters.specs.Buckets.{HasFreshFirst, IsTakenIn, BoundCounters, by_counter};

use crate::monitor::Monitor;
use crate::shared_key::SharedKey;
use hh_stream::{BorrowedKey, Key, KeyHash, in_range};
use hh_summaries::{MAX_K, Summary, SummaryFault, lower_all, push_copy, sort_by_key};
use indexmap::IndexMap;
use std::alloc::{AllocError, Global};
use std::collections::BTreeSet;
use std::marker::Model;

/// Space-Saving with the monitored keys in buckets by counters that they had, so that the key to
/// drop is soon found. Hits are gathered: an item whose key is monitored only raises the key's
/// counter, and the key stays in its bucket (Metwally, Agrawal and El Abbadi 2005, whose list of
/// buckets moves a key with each item).
///
/// No key stands in the bucket of a number above its counter. So before a key is dropped, the first
/// key of the first bucket moves to that of its counter, again and again, until the first key
/// stands right: it then has the least counter.
///
/// An item whose key is monitored costs one look-up by hash, and takes no memory. A newcomer costs
/// searches in an ordered set, whose steps grow as the logarithm of the number of counters, and the
/// moves of keys that were hit since they moved last. Its key is made once and hashed twice; each
/// key that moves, and the one that is dropped, is hashed, and none is copied.
/// [`least`](Monitor::least) looks at each counter. A contract sees k, the total and the counters
/// by rising key.
#[derive(Debug, Drop)]
pub struct BucketSaving {
    alloc: Global,
    k: u64,
    total: u64,
    index: Index,
    // the keys beside one number are its bucket
    buckets: BTreeSet<(u64, SharedKey)>,
}

impl Model for BucketSaving {
    ghost use Rattle.hh_summaries.specs.Counters.{SummaryView, tally};
    ghost use Rattle.hh_counters.specs.Buckets.{IsLinked};

    ghost Value = { SummaryView };

    ghost view = { λ s. record { k = s.k; total = s.total; counters = tally s.index.entries } };

    ghost invariant = { λ s. IsLinked s.k s.total s.index.entries s.buckets };
}

// The keys that are monitored, each with its counter.
type Index = IndexMap<SharedKey, u64, KeyHash>;

// The most keys for which room is made at the start.
const FIRST_ROOM: usize = 1024;

impl BucketSaving {
    /// Space-Saving of no items, with room for the first keys. Keys are hashed by the words that
    /// all runs have: where others choose them, [`with_hasher`](BucketSaving::with_hasher) takes
    /// words of the run. The error is the first of `BadK` and `Memory` that holds.
    pub fn new(alloc: Global, k: u64) -> Result<BucketSaving, SummaryFault>
        ensures empty { IfOk result (λ s. s ≡ record { k = k; total = 0; counters = [] }) }
        ensures bad_k { IsErrOf result SummaryFault.BadK ↔ (in_range k max_k ≡ false) }
        ensures faults { IfErr result IsNewFault }
    {
        if !in_range(k, MAX_K) {
            return Err(SummaryFault::BadK);
        }
        Ok(BucketSaving::with_hasher(alloc, k, KeyHash::fixed())?)
    }

    /// [`new`](BucketSaving::new) for a k from 1 to [`MAX_K`], where only memory can be refused, with
    /// keys hashed by `hash`. It decides how fast a key is found, and no counter.
    pub fn with_hasher(alloc: Global, k: u64, hash: KeyHash) -> Result<BucketSaving, AllocError>
        requires { in_range k max_k ≡ true }
        ensures { IfOk result (λ s. s ≡ record { k = k; total = 0; counters = [] }) }
    {
        // a newcomer enters before the key that it replaces goes
        let most = k as usize + 2;
        let index = IndexMap::with_capacity_and_hasher(alloc, most.min(FIRST_ROOM), hash)?;
        Ok(BucketSaving {
            alloc,
            k,
            total: 0,
            index,
            buckets: BTreeSet::new(alloc),
        })
    }
}

impl Monitor for BucketSaving {
    ghost seen = { λ s. s };

    fn k(&self) -> u64 {
        self.k
    }

    fn total(&self) -> u64 {
        self.total
    }

    fn len(&self) -> usize {
        self.index.len()
    }

    fn least(&self) -> u64 {
        if self.index.len() as u64 <= self.k {
            return 0;
        }
        least_in(&self.index)
    }

    fn get(&self, key: &Key) -> u64 {
        self.index
            .get(BorrowedKey(key.bytes()))
            .copied()
            .unwrap_or(0)
    }

    fn add_within(&mut self, key: &[u8], weight: u64) -> Result<(), AllocError> {
        add_item(
            self.alloc,
            self.k,
            &mut self.index,
            &mut self.buckets,
            key,
            weight,
        )?;
        self.total += weight;
        Ok(())
    }

    fn into_summary(self) -> Result<Summary, BucketSaving> {
        let least = self.least();
        match translated_entries(self.alloc, &self.index, least) {
            Ok(entries) => Ok(Summary::from_entries(self.k, self.total, entries)),
            Err(_) => Err(self),
        }
    }
}

// The least counter, 0 where there is none.
fn least_in(index: &Index) -> u64
    requires distinct { IsDistinct same_key (keys_of index.now.entries) }
    requires positive { (q : Bytes)
        → IfSome (lookup (same_key q) index.now.entries) (λ m. 0 < m) }
    ensures { result ≡ least_counter (tally index.now.entries) }
{
    let mut least = 0;
    for i in 0..index.len() {
        if let Some((_, counter)) = index.get_index(i) {
            if i == 0 || *counter < least {
                least = *counter;
            }
        }
    }
    least
}

// The counters less the least, by rising key.
fn translated_entries(
    alloc: Global,
    index: &Index,
    least: u64,
) -> Result<Vec<(Key, u64)>, AllocError>
    requires distinct { IsDistinct same_key (keys_of index.now.entries) }
    ensures { IfOk result (λ entries. entries.items ≡ lower least (tally index.now.entries)) }
{
    let mut entries = entries_above(alloc, index, least)?;
    sort_by_key(&mut entries);
    lower_all(&mut entries, least);
    Ok(entries)
}

// The counters above this number, in the order of the index.
fn entries_above(alloc: Global, index: &Index, least: u64) -> Result<Vec<(Key, u64)>, AllocError>
    ensures { IfOk result (λ entries. entries.items ≡ filter (exceeds least) index.now.entries) }
{
    let mut entries = Vec::new(alloc);
    for i in 0..index.len() {
        if let Some((key, counter)) = index.get_index(i) {
            if *counter > least {
                push_copy(&mut entries, key.key(), *counter)?;
            }
        }
    }
    Ok(entries)
}

// Adds the item to both parts, or leaves the counters as they were.
fn add_item(
    alloc: Global,
    k: u64,
    index: &mut Index,
    buckets: &mut BTreeSet<(u64, SharedKey)>,
    key: &[u8],
    weight: u64,
) -> Result<(), AllocError>
    requires key { (0 < length key.now) × (length key.now ≤ max_key_len) }
    requires positive { 0 < weight }
    requires bounded { total_of (tally index.old.entries) + weight < 2 ^ 63 }
    requires bounds { BoundCounters index.old.entries buckets.old }
    ensures taken { OnOk result
        (IsTakenIn k index.old.entries index.new.entries buckets.new (key.now, weight)) }
    ensures unchanged { OnErr result (index.new.entries ≡ index.old.entries) }
    ensures bounds { OnErr result (BoundCounters index.new.entries buckets.new) }
    ensures known { 0 < weight_of key.now (tally index.old.entries) → IsOk result }
{
    if let Some((place, _, counter)) = index.get_full(BorrowedKey(key)) {
        let raised = *counter + weight;
        set_counter(index, key, place, raised);
        return Ok(());
    }
    let newcomer = SharedKey::of_bytes(alloc, key)?;
    if index.len() as u64 <= k {
        return enter(index, buckets, newcomer, weight);
    }
    let least = refresh_first(index, buckets)?;
    replace_first(index, buckets, newcomer, least, weight)
}

// Moves the first key of the first bucket to that of its counter, until it stands there. This
// counter, which is the least.
fn refresh_first(index: &Index, buckets: &mut BTreeSet<(u64, SharedKey)>) -> Result<u64, AllocError>
    requires some { 0 < length index.now.entries }
    requires bounds { BoundCounters index.now.entries buckets.old }
    ensures bounds { BoundCounters index.now.entries buckets.new }
    ensures fresh { IfOk result (HasFreshFirst index.now.entries buckets.new) }
{
    loop {
        let Some((from, key)) = buckets.first() else {
            unreachable!("an index with a key has a first bucket");
        };
        let Some(counter) = index.get(key) else {
            unreachable!("a key in a bucket is in the index");
        };
        if counter == from {
            return Ok(*from);
        }
        let moved = (*counter, key.share()?);
        buckets.insert(moved)?;
        buckets.pop_first();
    }
}

// Puts a newcomer in place of the first key of the first bucket, whose counter is the least, or
// leaves both parts as they were.
fn replace_first(
    index: &mut Index,
    buckets: &mut BTreeSet<(u64, SharedKey)>,
    newcomer: SharedKey,
    least: u64,
    weight: u64,
) -> Result<(), AllocError>
    requires positive { 0 < weight }
    requires bounded { total_of (tally index.old.entries) + weight < 2 ^ 63 }
    requires new { index_get same_key index.old newcomer ≡ None }
    requires fresh { HasFreshFirst index.old.entries buckets.old least }
    ensures taken { OnOk result ((k : ℕ) → BoundCounters index.old.entries buckets.old
        → k < length index.old.entries
        → IsTakenIn k index.old.entries index.new.entries buckets.new (newcomer, weight)) }
    ensures unchanged { OnErr result (index.new.entries ≡ index.old.entries) }
    ensures same { OnErr result (IsUnchanged buckets.old buckets.new) }
{
    enter(index, buckets, newcomer, least + weight)?;
    let Some((_, dropped)) = buckets.pop_first() else {
        unreachable!("the first key is still there");
    };
    index.swap_remove(&dropped);
    Ok(())
}

// Makes this the counter of the key, which stands at the place.
fn set_counter(index: &mut Index, key: &[u8], place: usize, to: u64)
    requires place { index_of same_key index.old key.now ≡ Some place }
    ensures set { Updates same_key index.old index.new key.now (Some to) }
    ensures distinct { IsUnique same_key index.old → IsUnique same_key index.new }
{
    let (_, counter) = index.pair_mut(place);
    *counter = to;
}

// Puts a new key into the index and into the bucket of its counter, or leaves both as they were.
fn enter(
    index: &mut Index,
    buckets: &mut BTreeSet<(u64, SharedKey)>,
    key: SharedKey,
    counter: u64,
) -> Result<(), AllocError>
    requires new { index_get same_key index.old key ≡ None }
    ensures entered { OnOk result (Updates same_key index.old index.new key (Some counter)) }
    ensures put { OnOk result (SetUpdates by_counter buckets.old buckets.new (counter, key) true) }
    ensures sorted { OnOk result
        (buckets.new.keys ≡ insert_key by_counter buckets.old.keys (counter, key)) }
    ensures unchanged { OnErr result (index.new.entries ≡ index.old.entries) }
    ensures same { OnErr result (IsUnchanged buckets.old buckets.new) }
    ensures distinct { IsUnique same_key index.old → IsUnique same_key index.new }
{
    let shared = key.share()?;
    index.insert(key, counter)?;
    if let Err(refused) = buckets.insert((counter, shared)) {
        index.pop();
        return Err(refused.into());
    }
    Ok(())
}
