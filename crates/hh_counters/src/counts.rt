//! Candidates that are lent, counted as items come.

ghost use Rattle.std.specs.Prelude.{◌≡◌, ◌+◌, ◌<◌, ◌≤◌, ◌∷◌, [], IsOk, IfOk};
ghost use Rattle.std.specs.Prelude.{filter, length, slice_index, zip};
ghost use Rattle.hh_stream.specs.Weights.{max_total, total_of};
ghost use Rattle.hh_summaries.specs.Counters.{exceeds};
ghost use Rattle.hh_summaries.specs.Report.{IsShare, rows_above};
ghost use Rattle.hh_counters.specs.Counting.{count_of, count_with};

use crate::candidates::Candidates;
use crate::laws::{counts_add_up, counts_follow_items, counts_stay_within};
use crate::report::{Heavy, heavy_rows};
use hh_stream::{MAX_TOTAL, PieceFault, Sketch, Stream, add_each};
use std::alloc::{AllocError, Global};
use std::marker::Model;

/// Candidates, each with its weight in the items that came, and the total weight of those. The
/// candidates are lent, so that several may count the same ones in items of their own.
#[derive(Drop)]
pub struct Counts<'c> {
    candidates: &'c Candidates,
    weights: Vec<u64>,
    total: u64,
}

impl<'c> Model for Counts<'c> {
    ghost use Rattle.std.specs.Prelude.{◌≡◌, ◌≤◌, All, length};
    ghost use Rattle.hh_stream.specs.Weights.{max_total};
    ghost use Rattle.hh_counters.specs.Counting.{Count};

    ghost Value = { Count };

    ghost view = { λ counts. record {
      keys = counts.candidates.now;
      weights = counts.weights.items;
      total = counts.total;
    } };

    ghost invariant = { λ counts. (length counts.weights.items ≡ length counts.candidates.now)
        × All (λ n. n ≤ counts.total) counts.weights.items × (counts.total ≤ max_total) };
}

impl<'c> Counts<'c> {
    /// The candidates before any item.
    pub fn new(alloc: Global, candidates: &'c Candidates) -> Result<Counts<'c>, AllocError>
        ensures { IfOk result (λ counts. counts ≡ count_of candidates.now []) }
    {
        counts_add_up();
        let weights = vec![in alloc; 0u64; candidates.len()]?;
        Ok(Counts {
            candidates,
            weights,
            total: 0,
        })
    }

    /// The total weight of the items that came.
    pub fn total(&self) -> u64
        ensures total { result ≡ self.now.total }
        ensures bounded { result ≤ max_total }
    {
        self.total
    }

    /// The weight of the key at a place, from 0 on by rising key, in the items that came.
    pub fn weight(&self, place: usize) -> u64
        requires { place < length self.now.keys }
        ensures { result ≡ slice_index self.now.weights place }
    {
        self.weights[place]
    }

    /// The weight of each candidate, at its place.
    pub fn into_weights(self) -> Vec<u64>
        ensures { result.items ≡ self.entry.weights }
    {
        self.weights
    }

    /// Counts an item, of the key with these bytes.
    pub fn add_bytes(&mut self, key: &[u8], weight: u64)
        requires { self.old.total + weight ≤ max_total }
        ensures { self.new ≡ count_with self.old ((key.now, weight) ∷ []) }
    {
        counts_stay_within();
        self.candidates.count_bytes(key, weight, &mut self.weights);
        self.total += weight;
    }

    /// Counts the items of a stream.
    pub fn add_stream(&mut self, stream: &Stream)
        requires { self.old.total + total_of stream.now ≤ max_total }
        ensures { self.new ≡ count_with self.old stream.now }
    {
        counts_stay_within();
        self.candidates
            .count_piece(stream.items(), &mut self.weights);
        self.total += stream.total();
    }

    /// The keys above p/q of the total, by falling weight and then by rising key. p/q is at most 1,
    /// and q at most [`MAX_Q`](crate::MAX_Q).
    pub fn select(&self, p: u64, q: u64) -> Result<Vec<Heavy>, AllocError>
        requires { IsShare p q }
        ensures rows { IfOk result (λ rows. rows.items
            ≡ rows_above p q self.now.total (zip self.now.keys self.now.weights)) }

        // a report without rows takes no memory
        ensures none { rows_above p q self.now.total (zip self.now.keys self.now.weights) ≡ []
            → IsOk result }
    {
        self.candidates.select(&self.weights, self.total, p, q)
    }

    /// The keys that came, each with its weight, by rising key.
    pub fn rows(&self, alloc: Global) -> Result<Vec<Heavy>, AllocError>
        ensures { IfOk result (λ rows. rows.items
            ≡ filter (exceeds 0) (zip self.now.keys self.now.weights)) }
    {
        let rows = heavy_rows(alloc, self.candidates.keys(), &self.weights, 1, 1, 0)?;
        Ok(rows)
    }
}

impl<'c> Sketch for Counts<'c> {
    ghost is_of = { λ s xs t. t ≡ count_of s.keys xs };

    fn fresh(&self, alloc: Global) -> Result<Counts<'c>, AllocError> {
        Counts::new(alloc, self.candidates)
    }

    fn merge(mut self, _alloc: Global, other: Counts<'c>) -> Result<Counts<'c>, PieceFault> {
        // The total is too large, where both count the same candidates.
        if self.weights.len() != other.weights.len() || other.total > MAX_TOTAL - self.total {
            return Err(PieceFault::Refused);
        }
        add_each(&mut self.weights, &other.weights);
        self.total += other.total;
        Ok(self)
    }

    fn follow_items(&self) {
        counts_follow_items();
    }
}
