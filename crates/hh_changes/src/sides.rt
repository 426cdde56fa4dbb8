//! Two summaries beside each other.

ghost use Rattle.std.specs.Prelude.{◌≡◌};
ghost use Rattle.hh_summaries.specs.Counters.{IsCounters};
ghost use Rattle.hh_commands.specs.Bounds.{bounds_of};

use hh_commands::bounds_in;
use hh_counters::Summary;
use hh_stream::Key;
use std::marker::Model;

/// The summaries of an older and of a newer stream, of any two k. A contract sees both.
#[derive(Debug, Drop)]
pub struct Sides {
    old: Summary,
    new: Summary,
    slacks: (u64, u64),
}

impl Model for Sides {
    ghost use Rattle.std.specs.Prelude.{◌≡◌};
    ghost use Rattle.hh_summaries.specs.Counters.{slack};
    ghost use Rattle.hh_changes.specs.Changes.{Pair};

    ghost Value = { Pair };

    ghost view = { λ sides. record { old = sides.old; new = sides.new } };

    ghost invariant = { λ sides. sides.slacks
        ≡ (
          slack sides.old.counters sides.old.total sides.old.k,
          slack sides.new.counters sides.new.total sides.new.k,
        ) };
}

impl Sides {
    /// Puts `new` beside `old`.
    pub fn new(old: Summary, new: Summary) -> Sides
        ensures { result ≡ record { old = old; new = new } }
    {
        let slacks = (old.slack(), new.slack());
        Sides { old, new, slacks }
    }

    /// The summary of the older stream.
    pub fn old(&self) -> &Summary
        ensures old { result.now ≡ self.now.old }
        ensures counters { IsCounters self.now.old.counters }
    {
        let _k = self.old.k();
        &self.old
    }

    /// The summary of the newer stream.
    pub fn newer(&self) -> &Summary
        ensures new { result.now ≡ self.now.new }
        ensures counters { IsCounters self.now.new.counters }
    {
        let _k = self.new.k();
        &self.new
    }

    /// Gives what `key` weighs at least and at most in the older stream, and in the newer one.
    pub fn bounds(&self, key: &Key) -> ((u64, u64), (u64, u64))
        ensures { result ≡ (bounds_of self.now.old key.now, bounds_of self.now.new key.now) }
    {
        (
            bounds_in(&self.old, self.slacks.0, key),
            bounds_in(&self.new, self.slacks.1, key),
        )
    }
}
