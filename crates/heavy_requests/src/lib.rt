//! What a command line asks the program `heavy` for.
#![tactic(auto)]

mod fields;
mod request;
mod usage_report;

pub use fields::split_fields;
pub use request::{Asked, RecordWords, UsageError, read_request};
pub use usage_report::UsageReport;
