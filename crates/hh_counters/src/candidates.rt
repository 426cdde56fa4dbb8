//! The keys of a summary as candidates for the report.

ghost use Rattle.std.specs.Prelude.{◌≡◌, ℕ, ◌+◌, ◌<◌, ◌≤◌, ◌^◌, ◌↔◌, ◌==◌, [], ◌∷◌, All, Contains, IsSome, IfSome, IsOk, IfOk, OnOk, Some, length, slice_get, zip};
ghost use Rattle.std.specs.List.Sorted.{IsStrictlySortedBy};
ghost use Rattle.std.specs.Map.{keys_of};
ghost use Rattle.indexmap.specs.IndexSet.{insert_key};
ghost use Rattle.hh_stream.specs.Weights.{key_cmp, same_key, total_of};
ghost use Rattle.hh_summaries.specs.Counters.{max_k, IsCounters};
ghost use Rattle.hh_summaries.specs.Report.{IsShare, counts_with, rows_above};

use crate::report::{Heavy, selected_rows};
use hh_stream::{BorrowedKey, Item, Key, KeyHash};
use hh_summaries::Summary;
use indexmap::IndexSet;
use std::alloc::{AllocError, Global};
use std::marker::Model;

/// The keys of a summary, each at its place by rising key.
///
/// Each key that is heavy in the summary's stream is among them, so a second pass over the stream
/// that counts their weights finds the report. A contract sees the list of the keys.
#[derive(Debug, Drop)]
pub struct Candidates {
    keys: IndexSet<Key, KeyHash>,
}

impl Model for Candidates {
    ghost use Rattle.std.specs.Prelude.{List};
    ghost use Rattle.std.specs.List.Sorted.{IsStrictlySortedBy};
    ghost use Rattle.hh_stream.specs.Weights.{Bytes, key_cmp};

    ghost Value = { List Bytes };

    ghost view = { λ candidates. candidates.keys.keys };

    ghost invariant = { λ candidates. IsStrictlySortedBy key_cmp candidates.keys.keys };
}

impl Candidates {
    /// The keys that have a counter. They are hashed by the words that all runs have: where others
    /// choose keys, [`with_hasher`](Candidates::with_hasher) takes words of the run.
    pub fn of(alloc: Global, summary: &Summary) -> Result<Candidates, AllocError>
        ensures keys { IfOk result (λ candidates. candidates ≡ keys_of summary.now.counters) }
        ensures few { IfOk result (λ candidates. length candidates ≤ max_k) }
    {
        Candidates::with_hasher(alloc, summary, KeyHash::fixed())
    }

    /// [`of`](Candidates::of), with keys hashed by `hash`. It decides how fast a key is found, and
    /// no place.
    pub fn with_hasher(
        alloc: Global,
        summary: &Summary,
        hash: KeyHash,
    ) -> Result<Candidates, AllocError>
        ensures keys { IfOk result (λ candidates. candidates ≡ keys_of summary.now.counters) }
        ensures counters { OnOk result (IsCounters summary.now.counters) }
        ensures few { IfOk result (λ candidates. length candidates ≤ max_k) }
    {
        // It bounds the number of keys.
        let _k = summary.k();
        let candidates = Candidates::of_entries(alloc, summary.entries(), hash)?;
        Ok(candidates)
    }

    /// The keys of some entries by rising key, hashed by `hash`.
    pub fn of_entries(
        alloc: Global,
        entries: &[(Key, u64)],
        hash: KeyHash,
    ) -> Result<Candidates, AllocError>
        requires { IsStrictlySortedBy key_cmp (keys_of entries.now) }
        ensures { IfOk result (λ candidates. candidates ≡ keys_of entries.now) }
    {
        let mut keys = IndexSet::with_capacity_and_hasher(alloc, entries.len(), hash)?;
        for i in 0..entries.len() {
            insert_copy(&mut keys, &entries[i].0)?;
        }
        Ok(Candidates { keys })
    }

    /// How many candidates there are.
    pub fn len(&self) -> usize
        ensures len { result ≡ length self.now }
        ensures rising { IsStrictlySortedBy key_cmp self.now }
    {
        self.keys.len()
    }

    /// Whether there is no candidate.
    pub fn is_empty(&self) -> bool
        ensures { result ≡ (length self.now == 0) }
    {
        self.keys.is_empty()
    }

    /// The keys.
    pub(crate) fn keys(&self) -> &[Key]
        ensures { result.now ≡ self.now }
    {
        self.keys.as_slice()
    }

    /// The i-th key by rising key.
    pub fn key(&self, i: usize) -> &Key
        requires { i < length self.now }
        ensures { slice_get self.now i ≡ Some result.now }
    {
        &self.keys()[i]
    }

    /// Where the key is, if it is a candidate.
    pub fn place(&self, key: &Key) -> Option<usize>
        ensures at { (i : ℕ) → (result ≡ Some i) ↔ (slice_get self.now i ≡ Some key.now) }
        ensures found { IsSome result ↔ Contains self.now key.now }
        ensures within { IfSome result (λ i. i < length self.now) }
    {
        self.place_of(key.bytes())
    }

    // Where the key with these bytes is, if it is a candidate.
    fn place_of(&self, key: &[u8]) -> Option<usize>
        ensures at { (i : ℕ) → (result ≡ Some i) ↔ (slice_get self.now i ≡ Some key.now) }
        ensures found { IsSome result ↔ Contains self.now key.now }
        ensures within { IfSome result (λ i. i < length self.now) }
    {
        self.keys.get_index_of(BorrowedKey(key))
    }

    /// Adds the weight to the number at the key's place, if the key is a candidate.
    pub fn count(&self, key: &Key, weight: u64, numbers: &mut [u64])
        requires lengths { length numbers.old ≡ length self.now }
        requires bounded { All (λ n. n + weight < 2 ^ 64) numbers.old }
        ensures { numbers.new ≡ counts_with self.now ((key.now, weight) ∷ []) numbers.old }
    {
        self.count_bytes(key.bytes(), weight, numbers);
    }

    /// [`count`](Candidates::count) of the key with these bytes.
    pub fn count_bytes(&self, key: &[u8], weight: u64, numbers: &mut [u64])
        requires lengths { length numbers.old ≡ length self.now }
        requires bounded { All (λ n. n + weight < 2 ^ 64) numbers.old }
        ensures { numbers.new ≡ counts_with self.now ((key.now, weight) ∷ []) numbers.old }
    {
        if self.keys.is_empty() {
            return;
        }
        if let Some(place) = self.place_of(key) {
            numbers[place] += weight;
        }
    }

    /// Adds to the number at each place the weight of the place's key in the items.
    pub fn count_piece(&self, items: &[Item], numbers: &mut [u64])
        requires lengths { length numbers.old ≡ length self.now }
        requires bounded { All (λ n. n + total_of items.now < 2 ^ 64) numbers.old }
        ensures { numbers.new ≡ counts_with self.now items.now numbers.old }
    {
        if self.keys.is_empty() {
            return;
        }
        for item in items {
            self.count(item.key(), item.weight(), numbers);
        }
    }

    /// The rows of the report: the keys whose number is more than p/q of the total, each with its
    /// number, by falling number and then by rising key. p/q is at most 1, and q at most
    /// [`MAX_Q`](crate::MAX_Q).
    pub fn select(
        &self,
        numbers: &[u64],
        total: u64,
        p: u64,
        q: u64,
    ) -> Result<Vec<Heavy>, AllocError>
        requires lengths { length numbers.now ≡ length self.now }
        requires share { IsShare p q }
        ensures rows { IfOk result
            (λ rows. rows.items ≡ rows_above p q total (zip self.now numbers.now)) }

        // a report without rows takes no memory
        ensures none { rows_above p q total (zip self.now numbers.now) ≡ [] → IsOk result }
    {
        let alloc = *self.keys.allocator();
        selected_rows(alloc, self.keys(), numbers, p, q, total)
    }
}

// Puts a copy of the key into the set.
fn insert_copy(keys: &mut IndexSet<Key, KeyHash>, key: &Key) -> Result<(), AllocError>
    ensures { OnOk result (keys.new.keys ≡ insert_key same_key keys.old.keys key.now) }
{
    keys.insert(key.copy()?)?;
    Ok(())
}
