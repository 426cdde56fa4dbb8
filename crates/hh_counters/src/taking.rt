//! Monitors and counts as takers of items.

ghost use Rattle.std.specs.Prelude.{◌∷◌, []};
ghost use Rattle.hh_counters.specs.Counting.{count_with};
ghost use Rattle.hh_counters.specs.SpaceSaving.{monitor_with};

use crate::bucket_saving::BucketSaving;
use crate::counts::Counts;
use crate::monitor::Monitor;
use hh_stream::TakeItems;
use std::alloc::{AllocError, Global};

impl TakeItems for BucketSaving {
    ghost with_item = { monitor_with };

    ghost weight_taken = { λ monitor. monitor.total };

    fn total(&self) -> u64 {
        Monitor::total(self)
    }

    fn take(&mut self, _alloc: Global, key: &[u8], weight: u64) -> Result<(), AllocError> {
        self.add_within(key, weight)
    }
}

impl<'c> TakeItems for Counts<'c> {
    ghost with_item = { λ counts item. count_with counts (item ∷ []) };

    ghost weight_taken = { λ counts. counts.total };

    fn total(&self) -> u64 {
        self.total()
    }

    fn take(&mut self, _alloc: Global, key: &[u8], weight: u64) -> Result<(), AllocError> {
        self.add_bytes(key, weight);
        Ok(())
    }
}
