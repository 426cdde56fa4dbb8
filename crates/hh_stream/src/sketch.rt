//! What several make of items, each of some, and is merged into what one makes of all.

ghost use Rattle.std.specs.Prelude.{◌≡◌, ◌+◌, ◌<◌, ◌^◌, ◌++◌, ◌∷◌, [], List, length};
ghost use Rattle.std.specs.Prelude.{EachIndex, IfOk, IsErrOf, slice_index};
ghost use Rattle.hh_stream.specs.Taking.{HaveSameSums};
ghost use Rattle.hh_stream.specs.Weights.{Entry, max_total, total_of};

use crate::taking::{PieceFault, TakeItems};
use std::alloc::{AllocError, Global};

/// A taker that is merged with another one of the same settings, whichever items each of them took,
/// and in whatever order (Agarwal et al., Mergeable Summaries, PODS 2012).
pub trait Sketch: TakeItems + Send + Sync {
    // That the last sketch, with the settings of the first, is one of these items.
    ghost is_of: { Self → List Entry → Self → Type 0 };

    /// Makes a sketch of no items, with the settings of this one.
    fn fresh(&self, alloc: Global) -> Result<Self, AllocError>
        ensures { IfOk result (is_of self.now []) };

    /// Makes the sketch of the items of both. It refuses weights that add up to more than
    /// [`MAX_TOTAL`](crate::MAX_TOTAL), and other settings.
    fn merge(self, alloc: Global, other: Self) -> Result<Self, PieceFault>
        ensures both { IfOk result (λ both. (s : Self) (xs ys : List Entry)
            → is_of s xs self → is_of s ys other → is_of s (xs ++ ys) both) }
        ensures refused { IsErrOf result PieceFault.Refused → (s : Self) (xs ys : List Entry)
            → is_of s xs self → is_of s ys other → max_total < total_of xs + total_of ys };

    /// Says what holds of all sketches: they weigh what their items do, and follow these item by
    /// item, whose order doesn't matter. It does nothing.
    fn follow_items(&self)
        ensures weighs { (s t : Self) (xs : List Entry) → is_of s xs t
            → Self.weight_taken t ≡ total_of xs }
        ensures more { (s t : Self) (xs : List Entry) (e : Entry) → is_of s xs t
            → is_of s (xs ++ e ∷ []) (Self.with_item t e) }
        ensures order { (s t : Self) (xs ys : List Entry) → HaveSameSums xs ys → is_of s xs t
            → is_of s ys t };
}

/// Adds to each of `numbers` the one of `others` at its place.
pub fn add_each(numbers: &mut [u64], others: &[u64])
    requires as_many { length numbers.old ≡ length others.now }
    requires room { EachIndex numbers.old
        (λ i. slice_index numbers.old i + slice_index others.now i < 2 ^ 64) }
    ensures { EachIndex numbers.new
        (λ i. slice_index numbers.new i ≡ slice_index numbers.old i + slice_index others.now i) }
{
    for i in 0..numbers.len() {
        numbers[i] += others[i];
    }
}
