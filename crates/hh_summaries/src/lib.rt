//! Summaries of weighted streams: at most k keys with counters, as Misra and Gries keep them, and
//! the merge of two.
#![tactic(auto)]

mod entries;
mod fault;
mod summary;
mod taking;

pub use entries::{
    add_entry, counter_of, cut, least_counter, level_of, lower_all, push_copy, sort_by_key,
};
pub use fault::SummaryFault;
pub use summary::{MAX_K, Summary};
