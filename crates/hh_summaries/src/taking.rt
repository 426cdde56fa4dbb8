//! Summaries as takers of items.

ghost use Rattle.hh_summaries.specs.Counters.{sketch_with};

use crate::summary::Summary;
use hh_stream::TakeItems;
use std::alloc::{AllocError, Global};

impl TakeItems for Summary {
    ghost with_item = { sketch_with };

    ghost weight_taken = { λ summary. summary.total };

    fn total(&self) -> u64 {
        self.total()
    }

    fn take(&mut self, _alloc: Global, key: &[u8], weight: u64) -> Result<(), AllocError> {
        self.add_within(key, weight)
    }
}
