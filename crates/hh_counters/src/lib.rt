//! Counters for the frequent keys of a weighted stream: Space-Saving in two forms, of which
//! Misra-Gries summaries are made, the rows of the report that a second pass makes of their keys,
//! and the laws of both.
#![tactic(auto)]

mod bucket_saving;
mod candidates;
mod counts;
pub mod laws;
mod monitor;
mod report;
mod shared_key;
mod space_saving;
mod taking;

pub use bucket_saving::BucketSaving;
pub use candidates::Candidates;
pub use counts::Counts;
pub use hh_summaries::{MAX_K, Summary, SummaryFault};
pub use monitor::{Monitor, monitored_summary};
pub use report::{Heavy, MAX_Q, is_threshold, selected_rows};
pub use space_saving::SpaceSaving;
