//! The total weight of items: a taker that keeps nothing else.

ghost use Rattle.std.specs.Prelude.{◌≡◌};

use hh_stream::TakeItems;
use std::alloc::{AllocError, Global};
use std::marker::Model;

/// The total weight of the items that were taken.
#[derive(Debug, Drop)]
pub struct Total(u64);

impl Model for Total {
    ghost use Rattle.std.specs.Prelude.{ℕ, ◌≤◌};
    ghost use Rattle.hh_stream.specs.Weights.{max_total};

    ghost Value = { ℕ };

    ghost view = { λ total. total.0 };

    ghost invariant = { λ total. total.0 ≤ max_total };
}

impl Total {
    /// The total of no items.
    pub fn new() -> Total
        ensures { result ≡ 0 }
    {
        Total(0)
    }
}

impl TakeItems for Total {
    ghost use Rattle.std.specs.Prelude.{◌+◌};

    ghost with_item = { λ total item. total + item.1 };

    ghost weight_taken = { λ total. total };

    fn total(&self) -> u64 {
        self.0
    }

    fn take(&mut self, _alloc: Global, _key: &[u8], weight: u64) -> Result<(), AllocError> {
        self.0 += weight;
        Ok(())
    }
}
