//! The bounds that a summary has for its keys, compared with what these weigh in records.

ghost use Rattle.std.specs.Prelude.{◌≡◌, List, IfOk, MatchBool, MatchOption, None};
ghost use Rattle.std.specs.Map.{keys_of};
ghost use Rattle.hh_stream.specs.Weights.{Entry};
ghost use Rattle.hh_counters.specs.Counting.{count_of};
ghost use Rattle.hh_commands.specs.Bounds.{AreWithin, IsBeyond, IsOutside, IsWithin};

use hh_counters::{Counts, Summary};
use hh_faults::Totals;
use hh_stream::Key;
use std::alloc::AllocError;

/// Which bounds of a key are compared with its weight.
#[derive(Clone, Copy, Debug, PartialEq, Eq)]
pub enum Bounds {
    /// Both, since the records are all those that were summarised.
    Both,
    /// The higher one, since the records may be a part of those.
    High,
}

/// A key of a summary whose weight in some records is outside its bounds. So these aren't the
/// records that were summarised, nor a part of them.
#[derive(Debug, Drop)]
pub struct Outside {
    pub key: Key,
    /// The key's weight in the records.
    pub weight: u64,
    /// The least that the key weighs in the records that were summarised.
    pub low: u64,
    /// The most that the key weighs there.
    pub high: u64,
}

/// What is compared of a summary and some records, and where they differ.
#[derive(Debug)]
pub struct Comparison {
    /// Whether a key outside its bounds refuses the records. Else it is left in `outside`, and the
    /// rows are made.
    pub refuses: bool,
    /// Both totals, where they differ.
    pub totals: Option<Totals>,
    /// A key outside its bounds, where there is one.
    pub outside: Option<Outside>,
}

impl Drop for Comparison {
    /// Drops what was left: one call wherever a comparison is dropped.
    fn drop(self) {
        let Comparison {
            refuses: _,
            totals: _,
            outside: _outside,
        } = self;
    }
}

impl Comparison {
    /// Nothing is compared yet.
    pub fn new(refuses: bool) -> Comparison
        ensures { result ≡ record { refuses = refuses; totals = None; outside = None } }
    {
        Comparison {
            refuses,
            totals: None,
            outside: None,
        }
    }
}

/// Whether a weight is outside the bounds that are compared.
fn is_beyond(bounds: Bounds, low: u64, high: u64, weight: u64) -> bool
    ensures { MatchBool result
        (IsBeyond bounds (low, high) weight) (IsWithin bounds (low, high) weight) }
{
    match bounds {
        Bounds::Both => weight < low || high < weight,
        Bounds::High => high < weight,
    }
}

/// A key of a summary that is outside its bounds in the items that were counted, if there is one:
/// the first by rising key.
pub fn key_outside(
    summary: &Summary,
    counts: &Counts,
    bounds: Bounds,
) -> Result<Option<Outside>, AllocError>
    requires { counts.now.keys ≡ keys_of summary.now.counters }
    ensures { IfOk result (λ found. (xs : List Entry)
        → counts.now ≡ count_of (keys_of summary.now.counters) xs
        → MatchOption found (AreWithin bounds summary.now xs) (IsOutside bounds summary.now xs)) }
{
    let slack = summary.slack();
    // It bounds the total, and the counters by it.
    let _k = summary.k();
    for place in 0..summary.len() {
        let (key, low) = summary.entry(place);
        let (high, weight) = (low + slack, counts.weight(place));
        if is_beyond(bounds, low, high, weight) {
            return Ok(Some(Outside {
                key: key.copy()?,
                weight,
                low,
                high,
            }));
        }
    }
    Ok(None)
}
