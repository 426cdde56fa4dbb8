//! What a saved file holds.

use hh_countmin::Table;
use hh_summaries::Summary;

/// What a saved file holds.
#[derive(Debug, Drop)]
pub enum Saved {
    /// A Misra-Gries summary.
    Counters(Summary),
    /// A Count-Min table.
    Cells(Table),
}
