//! The weights of keys, those of which a tally is sure and others that were counted.

ghost use Rattle.std.specs.Prelude.{◌≡◌, ◌≤◌, List, IfOk, length, filter};
ghost use Rattle.std.specs.List.Sorted.{IsStrictlySortedBy};
ghost use Rattle.std.specs.Map.{keys_of};
ghost use Rattle.hh_stream.specs.Weights.{Entry, key_cmp};
ghost use Rattle.hh_summaries.specs.Report.{weights_at};
ghost use Rattle.hh_tally.specs.Tallies.{AreBounds, is_unsure, unsure_of};

use crate::tally::Tally;
use hh_stream::Key;
use hh_summaries::push_copy;
use std::alloc::{AllocError, Global};

impl Tally {
    /// Those of the `entries` of whose keys the tally isn't sure: they have to be counted.
    pub fn unsure(
        &self,
        alloc: Global,
        entries: &[(Key, u64)],
    ) -> Result<Vec<(Key, u64)>, AllocError>
        ensures unsure { IfOk result (λ left. left.items ≡ unsure_of self.now entries.now) }
        ensures rising { IsStrictlySortedBy key_cmp (keys_of entries.now)
            → IfOk result (λ left. IsStrictlySortedBy key_cmp (keys_of left.items)) }
        ensures few { IfOk result (λ left. length left.items ≤ length entries.now) }
    {
        let mut left = Vec::new(alloc);
        for (key, counter) in entries {
            if !self.is_sure(key) {
                push_copy(&mut left, key, *counter)?;
            }
        }
        Ok(left)
    }

    /// The weights of the keys of `entries`, where those of which the tally isn't sure were
    /// `counted`, in the order of [`unsure`](Tally::unsure).
    pub fn weights(
        &self,
        alloc: Global,
        entries: &[(Key, u64)],
        counted: &[u64],
    ) -> Result<Vec<u64>, AllocError>
        requires counted { length counted.now ≡ length (unsure_of self.now entries.now) }
        ensures count { IfOk result (λ weights. length weights.items ≡ length entries.now) }
        ensures weights { (xs : List Entry) → AreBounds self.now xs
            → counted.now ≡ weights_at (keys_of (unsure_of self.now entries.now)) xs
            → IfOk result (λ weights. weights.items ≡ weights_at (keys_of entries.now) xs) }
    {
        let mut weights = Vec::new(alloc);
        let mut next = 0;
        for (key, _) in entries {
            match self.sure_weight(key) {
                Some(weight) => weights.push(weight)?,
                None => {
                    weights.push(counted[next])?;
                    next += 1;
                }
            }
        }
        Ok(weights)
    }
}
