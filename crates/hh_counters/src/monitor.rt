//! What every form of Space-Saving keeps and promises.

ghost use Rattle.std.specs.Prelude.{◌≡◌, ◌+◌, ◌<◌, ◌≤◌, ◌↔◌, ◌==◌, OnOk, OnErr, IsOk, IfOk, IfErr, IsErrOf, length, []};
ghost use Rattle.hh_stream.specs.Weights.{max_key_len, max_total, weight_of, total_of};
ghost use Rattle.hh_summaries.specs.Counters.{SummaryView, sketch_of};
ghost use Rattle.hh_summaries.specs.Faults.{IsAddFault};
ghost use Rattle.hh_counters.specs.SpaceSaving.{least_of, monitor_of, monitor_with, translation_of};

use hh_stream::{Item, Key, MAX_TOTAL};
use hh_summaries::{Summary, SummaryFault};
use std::alloc::AllocError;

/// Space-Saving over a weighted stream: at most k + 1 monitored keys with counters (Metwally,
/// Agrawal and El Abbadi 2005).
///
/// A monitored key's counter is never below its weight, and at most [`least`](Monitor::least) above
/// it; no other key weighs more than that. Each form has the same counters after the same items.
pub trait Monitor: Drop {
    // k, the total, and the counters by rising key
    ghost seen: { Self → SummaryView };

    /// One less than the most keys that are monitored.
    fn k(&self) -> u64
        ensures { result ≡ (seen self.now).k };

    /// The sum of the weights of all items, which is the sum of the counters.
    fn total(&self) -> u64
        ensures total { result ≡ (seen self.now).total }
        ensures sum { result ≡ total_of (seen self.now).counters }
        ensures bounded { result ≤ max_total };

    /// How many keys are monitored.
    fn len(&self) -> usize
        ensures len { result ≡ length (seen self.now).counters }
        ensures few { result ≤ (seen self.now).k + 1 };

    /// Whether no key is monitored.
    fn is_empty(&self) -> bool
        ensures { result ≡ (length (seen self.now).counters == 0) }
    {
        self.len() == 0
    }

    /// The least counter, or 0 where one of the k + 1 is free.
    fn least(&self) -> u64
        ensures { result ≡ least_of (seen self.now).counters (seen self.now).k };

    /// The counter of the key, or 0 where it is not monitored.
    fn get(&self, key: &Key) -> u64
        ensures { result ≡ weight_of key.now (seen self.now).counters };

    /// Adds an item. A monitored key's counter grows by the weight. A newcomer gets a free counter,
    /// or takes over the least one, whose key is dropped: of several the least key. The error is
    /// the first of `TotalTooLarge` and `Memory` that holds; everything is then as it was.
    fn add(&mut self, key: &Key, weight: u64) -> Result<(), SummaryFault>
        requires { 0 < weight }
        ensures added { OnOk result
            (seen self.new ≡ monitor_with (seen self.old) (key.now, weight)) }
        ensures unchanged { OnErr result (seen self.new ≡ seen self.old) }
        ensures too_large { IsErrOf result SummaryFault.TotalTooLarge
            ↔ (max_total < (seen self.old).total + weight) }
        ensures faults { IfErr result IsAddFault }

        // a monitored key takes no memory
        ensures known { 0 < weight_of key.now (seen self.old).counters
            → (seen self.old).total + weight ≤ max_total → IsOk result }
    {
        if weight > MAX_TOTAL - self.total() {
            return Err(SummaryFault::TotalTooLarge);
        }
        Ok(self.add_within(key.bytes(), weight)?)
    }

    /// [`add`](Monitor::add) of the key with these bytes, 1 to 4,096 of them, where the total stays
    /// at most [`MAX_TOTAL`], so that only memory can be refused.
    fn add_within(&mut self, key: &[u8], weight: u64) -> Result<(), AllocError>
        requires key { (0 < length key.now) × (length key.now ≤ max_key_len) }
        requires positive { 0 < weight }
        requires room { (seen self.old).total + weight ≤ max_total }
        ensures added { OnOk result
            (seen self.new ≡ monitor_with (seen self.old) (key.now, weight)) }
        ensures unchanged { OnErr result (seen self.new ≡ seen self.old) }

        // a monitored key takes no memory
        ensures known { 0 < weight_of key.now (seen self.old).counters → IsOk result };

    /// The summary of Misra and Gries of the same items: each counter less the least one. Where
    /// memory is refused, the value comes back as it was.
    fn into_summary(self) -> Result<Summary, Self>
        ensures translated { IfOk result (λ s. s ≡ translation_of (seen self)) }
        ensures handed_back { IfErr result (λ m. seen m ≡ seen self) };
}

/// The summary of Misra and Gries of the items, by a monitor that has seen none: it adds them one
/// by one, and is translated at the end.
pub fn monitored_summary<M: Monitor>(mut monitor: M, items: &[Item]) -> Result<Summary, AllocError>
    requires empty { M.seen monitor ≡ monitor_of (M.seen monitor).k [] }
    requires bounded { total_of items.now ≤ max_total }
    ensures { IfOk result (λ summary. summary ≡ sketch_of (M.seen monitor).k items.now) }
{
    for item in items {
        monitor.add_within(item.key().bytes(), item.weight())?;
    }
    match monitor.into_summary() {
        Ok(summary) => Ok(summary),
        Err(_) => Err(AllocError),
    }
}
