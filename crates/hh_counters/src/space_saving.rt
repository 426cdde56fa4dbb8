//! Space-Saving in its plain form.

ghost use Rattle.std.specs.Prelude.{◌≡◌, ◌+◌, ◌<◌, ◌≤◌, ◌^◌, ◌↔◌, [], IfOk, IfErr, IsOk, IsErr, OnOk, OnErr, length, false};
ghost use Rattle.hh_stream.specs.Weights.{max_key_len, weight_of, total_of};
ghost use Rattle.hh_stream.specs.Ranges.{in_range};
ghost use Rattle.hh_summaries.specs.Counters.{max_k, IsCounters, SummaryView};
ghost use Rattle.hh_counters.specs.SpaceSaving.{IsFirstLeast, IsMonitor, step, taken_over, translation_of};

use crate::monitor::Monitor;
use hh_stream::{Key, in_range};
use hh_summaries::{MAX_K, Summary, SummaryFault, add_entry, counter_of, least_counter, lower_all};
use std::alloc::{AllocError, Global};
use std::marker::Model;

/// Space-Saving in its plain form: the counters by rising key, searched for the least.
///
/// An item whose key is monitored costs a search by halves, and takes no memory. A newcomer's key
/// is copied and put into its place, so that the counters after it move; where none is free, a
/// pass over all counters finds the least one before, and those after that one move back. A
/// contract sees k, the total and the counters by rising key.
#[derive(Debug, Drop)]
pub struct SpaceSaving {
    k: u64,
    total: u64,
    entries: Vec<(Key, u64)>,
}

impl Model for SpaceSaving {
    ghost use Rattle.hh_summaries.specs.Counters.{SummaryView};
    ghost use Rattle.hh_counters.specs.SpaceSaving.{IsMonitor};

    ghost Value = { SummaryView };

    ghost view = { λ s. record { k = s.k; total = s.total; counters = s.entries.items } };

    ghost invariant = { λ s. IsMonitor s.k s.total s.entries.items };
}

impl SpaceSaving {
    /// Space-Saving of no items. It takes no memory, and the one error is `BadK`.
    pub fn new(alloc: Global, k: u64) -> Result<SpaceSaving, SummaryFault>
        ensures empty { IfOk result (λ s. s ≡ record { k = k; total = 0; counters = [] }) }
        ensures bad_k { IsErr result ↔ (in_range k max_k ≡ false) }
        ensures fault { IfErr result (λ fault. fault ≡ SummaryFault.BadK) }
    {
        if !in_range(k, MAX_K) {
            return Err(SummaryFault::BadK);
        }
        Ok(SpaceSaving {
            k,
            total: 0,
            entries: Vec::new(alloc),
        })
    }
}

impl Monitor for SpaceSaving {
    ghost seen = { λ s. s };

    fn k(&self) -> u64 {
        self.k
    }

    fn total(&self) -> u64 {
        self.total
    }

    fn len(&self) -> usize {
        self.entries.len()
    }

    fn least(&self) -> u64 {
        if self.entries.len() as u64 <= self.k {
            return 0;
        }
        least_counter(&self.entries)
    }

    fn get(&self, key: &Key) -> u64 {
        counter_of(&self.entries, key.bytes())
    }

    fn add_within(&mut self, key: &[u8], weight: u64) -> Result<(), AllocError> {
        add_item(&mut self.entries, key, weight, self.k)?;
        self.total += weight;
        Ok(())
    }

    fn into_summary(self) -> Result<Summary, SpaceSaving>
        ensures translated { IfOk result (λ s. s ≡ translation_of self) }

        // it takes no memory
        ensures done { IsOk result }
    {
        let least = self.least();
        let SpaceSaving {
            k,
            total,
            mut entries,
        } = self;
        lower_all(&mut entries, least);
        Ok(Summary::from_entries(k, total, entries))
    }
}

// Adds the item to the counters, or leaves them as they were.
fn add_item(
    entries: &mut Vec<(Key, u64)>,
    key: &[u8],
    weight: u64,
    k: u64,
) -> Result<(), AllocError>
    requires key { (0 < length key.now) × (length key.now ≤ max_key_len) }
    requires counters { IsCounters entries.old.items }
    requires few { length entries.old.items ≤ k + 1 }
    requires positive { 0 < weight }
    requires bounded { total_of entries.old.items + weight < 2 ^ 63 }
    ensures step { OnOk result (entries.new.items ≡ step entries.old.items (key.now, weight) k) }
    ensures unchanged { OnErr result (entries.new.items ≡ entries.old.items) }
    ensures known { 0 < weight_of key.now entries.old.items → IsOk result }
{
    if 0 < counter_of(entries, key) || entries.len() as u64 <= k {
        return add_entry(entries, key, weight);
    }
    replace_least(entries, key, weight)
}

// Gives the key the first of the least counters and the weight, and drops that counter's key.
fn replace_least(entries: &mut Vec<(Key, u64)>, key: &[u8], weight: u64) -> Result<(), AllocError>
    requires key { (0 < length key.now) × (length key.now ≤ max_key_len) }
    requires counters { IsCounters entries.old.items }
    requires some { 0 < length entries.old.items }
    requires absent { weight_of key.now entries.old.items ≡ 0 }
    requires positive { 0 < weight }
    requires bounded { total_of entries.old.items + weight < 2 ^ 63 }
    ensures replaced { OnOk result
        (entries.new.items ≡ taken_over entries.old.items (key.now, weight)) }
    ensures unchanged { OnErr result (entries.new.items ≡ entries.old.items) }
{
    let place = least_place(entries);
    let least = entries[place].1;
    let shifted = if entries[place].0.bytes().cmp(key).is_lt() {
        place
    } else {
        place + 1
    };
    add_entry(entries, key, least + weight)?;
    entries.remove(shifted);
    Ok(())
}

// Where the least counter is, the first of several.
fn least_place(entries: &[(Key, u64)]) -> usize
    requires { 0 < length entries.now }
    ensures { IsFirstLeast entries.now result }
{
    let mut place = 0;
    for i in 1..entries.len() {
        if entries[i].1 < entries[place].1 {
            place = i;
        }
    }
    place
}
