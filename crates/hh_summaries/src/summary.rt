//! Misra-Gries summaries.

ghost use Rattle.std.specs.Prelude.{◌≡◌, ◌+◌, ◌<◌, ◌≤◌, ◌^◌, ◌↔◌, [], ◌≢◌, ◌==◌, IsTrue, IsOk, IsErr, IsErrOf, IfOk, IfErr, OnOk, OnErr, length, slice_index_or, false, true};
ghost use Rattle.hh_stream.specs.Weights.{max_total, weight_of, total_of, max_key_len};
ghost use Rattle.hh_stream.specs.Ranges.{in_range};
ghost use Rattle.hh_summaries.specs.Counters.{max_k, Fits, IsCounters, SummaryView, least_counter, sketch_with, merge_of, sketch_of, slack};
ghost use Rattle.hh_summaries.specs.Faults.{IsNewFault, IsAddFault, IsMergeFault};
ghost use Rattle.hh_summaries.specs.Report.{by_rank};

use crate::entries::{add_item, are_counters, counter_of, join, ranked, sum_of, sums_within};
use crate::fault::SummaryFault;
use hh_stream::{Item, Key, MAX_TOTAL, in_range};
use std::alloc::{AllocError, Global};
use std::marker::Model;

/// The largest k.
pub const MAX_K: u64 = 65_535;

/// A summary of a weighted stream: at most k keys with counters, as Misra and Gries keep them
/// (1982), and the stream's total.
///
/// A key's counter is never above its weight in the stream, and at most [`slack`](Summary::slack)
/// below it, so each key whose weight is more than the total divided by k + 1 has a counter. Merged
/// summaries keep that promise (Agarwal et al., Mergeable Summaries, PODS 2012). A summary made by
/// [`from_entries`](Summary::from_entries) promises as much as the entries do. A contract sees k,
/// the total and the list of counters by rising key.
#[derive(Debug, Drop)]
pub struct Summary {
    k: u64,
    total: u64,
    entries: Vec<(Key, u64)>,
}

impl Model for Summary {
    ghost use Rattle.hh_summaries.specs.Counters.{SummaryView, Fits};

    ghost Value = { SummaryView };

    ghost view = { λ s. record { k = s.k; total = s.total; counters = s.entries.items } };

    ghost invariant = { λ s. Fits s.k s.total s.entries.items };
}

impl Summary {
    /// The summary of no items. It takes no memory, and the one error is `BadK`.
    pub fn new(alloc: Global, k: u64) -> Result<Summary, SummaryFault>
        ensures empty { IfOk result (λ s. s ≡ record { k = k; total = 0; counters = [] }) }
        ensures bad_k { IsErr result ↔ (in_range k max_k ≡ false) }
        ensures fault { IfErr result (λ fault. fault ≡ SummaryFault.BadK) }
    {
        if !in_range(k, MAX_K) {
            return Err(SummaryFault::BadK);
        }
        Ok(Summary::empty(alloc, k))
    }

    /// [`new`](Summary::new) for a k from 1 to [`MAX_K`], where nothing can be refused.
    pub fn empty(alloc: Global, k: u64) -> Summary
        requires { in_range k max_k ≡ true }
        ensures { result ≡ record { k = k; total = 0; counters = [] } }
    {
        Summary {
            k,
            total: 0,
            entries: Vec::new(alloc),
        }
    }

    /// The summary of the items, added one by one. The error is the first of `BadK` and `Memory`
    /// that holds.
    pub fn of_items(alloc: Global, k: u64, items: &[Item]) -> Result<Summary, SummaryFault>
        requires { total_of items.now ≤ max_total }
        ensures misra_gries { IfOk result (λ s. s ≡ sketch_of k items.now) }
        ensures bad_k { IsErrOf result SummaryFault.BadK ↔ (in_range k max_k ≡ false) }
        ensures faults { IfErr result IsNewFault }

        // no items take no memory
        ensures nothing { items.now ≡ [] → in_range k max_k ≡ true → IsOk result }
    {
        let Ok(mut summary) = Summary::new(alloc, k) else {
            return Err(SummaryFault::BadK);
        };
        for item in items {
            let Ok(()) = summary.add_within(item.key().bytes(), item.weight()) else {
                return Err(SummaryFault::Memory);
            };
        }
        Ok(summary)
    }

    /// Whether [`from_entries`](Summary::from_entries) makes a summary of these: k is 1 to
    /// [`MAX_K`], the total is at most [`MAX_TOTAL`], there are at most k entries, their keys rise,
    /// and their counters are at least 1 and add up to at most the total.
    pub fn fits(k: u64, total: u64, entries: &[(Key, u64)]) -> bool
        ensures { IsTrue result ↔ Fits k total entries.now }
    {
        in_range(k, MAX_K)
            && total <= MAX_TOTAL
            && entries.len() as u64 <= k
            && are_counters(entries)
            && sums_within(entries, total)
    }

    /// The summary with these counters. That they are of some stream is not asked, and so nothing
    /// is promised of any: what a summary says of a stream's weights holds where its counters came
    /// from that stream, by adding, merging or reading back what was saved of such a summary.
    pub fn from_entries(k: u64, total: u64, entries: Vec<(Key, u64)>) -> Summary
        requires { Fits k total entries.items }
        ensures { result ≡ record { k = k; total = total; counters = entries.items } }
    {
        Summary { k, total, entries }
    }

    /// The most keys with counters.
    pub fn k(&self) -> u64
        ensures k { result ≡ self.now.k }
        ensures fits { Fits self.now.k self.now.total self.now.counters }
    {
        self.k
    }

    /// The sum of the weights of all items.
    pub fn total(&self) -> u64
        ensures total { result ≡ self.now.total }
        ensures bounded { result ≤ max_total }
    {
        self.total
    }

    /// How many keys have a counter.
    pub fn len(&self) -> usize
        ensures len { result ≡ length self.now.counters }
        ensures few { result ≤ self.now.k }
        ensures counters { IsCounters self.now.counters }
    {
        self.entries.len()
    }

    /// Whether no key has a counter.
    pub fn is_empty(&self) -> bool
        ensures { result ≡ (length self.now.counters == 0) }
    {
        self.entries.is_empty()
    }

    /// The sum of the counters.
    pub fn sum(&self) -> u64
        ensures sum { result ≡ total_of self.now.counters }
        ensures within { result ≤ self.now.total }
    {
        sum_of(&self.entries)
    }

    /// How far a counter may be below its key's weight: the total less the sum of the counters,
    /// divided by k + 1 and rounded down.
    pub fn slack(&self) -> u64
        ensures { result ≡ slack self.now.counters self.now.total self.now.k }
    {
        (self.total - self.sum()) / (self.k + 1)
    }

    /// The counter of the key, 0 where there is none.
    pub fn get(&self, key: &Key) -> u64
        ensures { result ≡ weight_of key.now self.now.counters }
    {
        counter_of(&self.entries, key.bytes())
    }

    /// The i-th key by rising key, with its counter.
    pub fn entry(&self, i: usize) -> (&Key, u64)
        requires { i < length self.now.counters }
        ensures { (result.0.now, result.1)
            ≡ slice_index_or self.now.counters i (result.0.now, result.1) }
    {
        let entry = &self.entries[i];
        (&entry.0, entry.1)
    }

    /// The keys with their counters, by rising key.
    pub fn entries(&self) -> &[(Key, u64)]
        ensures { result.now ≡ self.now.counters }
    {
        &self.entries
    }

    /// The keys with their counters, by falling counter and then by rising key.
    pub fn ranked(&self) -> Result<Vec<(Key, u64)>, AllocError>
        ensures ranked { IfOk result (λ ranked. ranked.items ≡ by_rank self.now.counters) }
        ensures sum { IfOk result (λ ranked. total_of ranked.items ≡ total_of self.now.counters) }

        // no counters take no memory
        ensures none { self.now.counters ≡ [] → IsOk result }
    {
        ranked(*self.entries.allocator(), &self.entries)
    }

    /// Adds an item: its key's counter grows by the weight, and where k + 1 keys then have
    /// counters, the least of them is taken from each, and only what stays above 0 is kept. The
    /// error is the first of `TotalTooLarge` and `Memory` that holds; the summary is then as it
    /// was.
    ///
    /// A key that has a counter costs a search among the keys. One that has none costs a walk over
    /// all counters, so that n such items cost n times k. For many items take a `BucketSaving` of
    /// `hh_counters`, whose cost for each grows as the logarithm of k, and translate it at the end.
    pub fn add(&mut self, key: &Key, weight: u64) -> Result<(), SummaryFault>
        requires { 0 < weight }
        ensures added { OnOk result (self.new ≡ sketch_with self.old (key.now, weight)) }
        ensures unchanged { OnErr result (self.new ≡ self.old) }
        ensures too_large { IsErrOf result SummaryFault.TotalTooLarge
            ↔ (max_total < self.old.total + weight) }
        ensures faults { IfErr result IsAddFault }

        // nothing grows where the key has a counter, or k do and none is below the weight
        ensures known { 0 < weight_of key.now self.old.counters
            → self.old.total + weight ≤ max_total → IsOk result }
        ensures least { length self.old.counters ≡ self.old.k
            → weight ≤ least_counter self.old.counters
            → self.old.total + weight ≤ max_total → IsOk result }
    {
        if weight > MAX_TOTAL - self.total {
            return Err(SummaryFault::TotalTooLarge);
        }
        Ok(self.add_within(key.bytes(), weight)?)
    }

    /// [`add`](Summary::add) of the key with these bytes, 1 to 4,096 of them, where the total stays
    /// at most [`MAX_TOTAL`], so that only memory can be refused.
    pub fn add_within(&mut self, key: &[u8], weight: u64) -> Result<(), AllocError>
        requires key { (0 < length key.now) × (length key.now ≤ max_key_len) }
        requires positive { 0 < weight }
        requires room { self.old.total + weight ≤ max_total }
        ensures added { OnOk result (self.new ≡ sketch_with self.old (key.now, weight)) }
        ensures unchanged { OnErr result (self.new ≡ self.old) }

        // nothing grows where the key has a counter, or k do and none is below the weight
        ensures known { 0 < weight_of key.now self.old.counters → IsOk result }
        ensures least { length self.old.counters ≡ self.old.k
            → weight ≤ least_counter self.old.counters → IsOk result }
    {
        add_item(&mut self.entries, key, weight, self.k)?;
        self.total += weight;
        Ok(())
    }

    /// Merges another summary with the same k: counters are added key by key, and where more than k
    /// keys then have counters, the (k + 1)-th largest is taken from each, and only what stays
    /// above 0 is kept. The error is the first of `DifferentK`, `TotalTooLarge` and `Memory` that
    /// holds; the summary is then as it was.
    pub fn merge(&mut self, other: &Summary) -> Result<(), SummaryFault>
        ensures merged { OnOk result (self.new ≡ merge_of self.old other.now) }
        ensures unchanged { OnErr result (self.new ≡ self.old) }
        ensures different_k { IsErrOf result SummaryFault.DifferentK ↔ (self.old.k ≢ other.now.k) }
        ensures too_large { IsErrOf result SummaryFault.TotalTooLarge
            ↔ ((self.old.k ≡ other.now.k) × (max_total < self.old.total + other.now.total)) }
        ensures faults { IfErr result IsMergeFault }

        // no counters take no memory
        ensures none { self.old.counters ≡ [] → other.now.counters ≡ []
            → self.old.k ≡ other.now.k → self.old.total + other.now.total ≤ max_total
            → IsOk result }
    {
        if self.k != other.k {
            return Err(SummaryFault::DifferentK);
        }
        if other.total > MAX_TOTAL - self.total {
            return Err(SummaryFault::TotalTooLarge);
        }
        match join(
            *self.entries.allocator(),
            &self.entries,
            &other.entries,
            self.k,
        ) {
            Ok(all) => {
                self.total += other.total;
                self.entries = all;
                Ok(())
            }
            Err(_) => Err(SummaryFault::Memory),
        }
    }
}
