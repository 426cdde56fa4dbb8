//! Tables as takers of items, and as sketches.

ghost use Rattle.std.specs.Prelude.{◌≡◌};
ghost use Rattle.hh_countmin.specs.Table.{grid_with, table_of};

use crate::laws::tables_follow_items;
use crate::table::Table;
use hh_stream::{PieceFault, Sketch, TakeItems};
use std::alloc::{AllocError, Global};

impl TakeItems for Table {
    ghost with_item = { grid_with };

    ghost weight_taken = { λ table. table.total };

    fn total(&self) -> u64 {
        self.total()
    }

    fn take(&mut self, _alloc: Global, key: &[u8], weight: u64) -> Result<(), AllocError> {
        self.add_within(key, weight);
        Ok(())
    }
}

impl Sketch for Table {
    ghost is_of = { λ s xs t. t ≡ table_of s.family s.width xs };

    fn fresh(&self, alloc: Global) -> Result<Table, AllocError> {
        let family = self.family().copy()?;
        Table::empty(alloc, family, self.width())
    }

    fn merge(mut self, _alloc: Global, other: Table) -> Result<Table, PieceFault> {
        tables_follow_items();
        match Table::merge(&mut self, &other) {
            Ok(()) => Ok(self),
            // The total is too large, where both have one family and width.
            Err(_) => Err(PieceFault::Refused),
        }
    }

    fn follow_items(&self) {
        tables_follow_items();
    }
}
