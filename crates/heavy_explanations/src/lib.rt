//! How a run ends: what it prints on standard error, and its exit status.
#![tactic(auto)]

mod bad_records;
mod columns;
mod comparisons;
mod escaped;
mod explain;
mod file_names;
mod first_bytes;
mod notes;
mod reasons;
mod record_place;
mod samples;
mod saved_kinds;
mod status;
mod thresholds;

pub use status::{status_of, status_of_kind, status_of_usage};
