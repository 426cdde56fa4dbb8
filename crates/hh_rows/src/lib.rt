//! Rows out: what a report is asked for by, with the share of the total that a key has to exceed,
//! and its heavy keys as they are written to a sink. Any rows are written as CSV, as TSV, or as
//! JSON, an object a line.
//!
//! `hh_` is heavy hitters, the frequent keys.
#![tactic(auto)]

mod json;
pub mod laws;
mod output;
mod printed;
mod report_options;
mod row_writer;
mod rows;
mod sink;
mod threshold;

pub use hh_faults::WriteFault;
pub use output::{Form, Output};
pub use printed::{RowOptions, millionths, printed_text, topmost};
pub use report_options::{ReportOptions, Tree};
pub use row_writer::{Names, RowWriter};
pub use rows::{condensed_text, report_text, write_report};
pub use sink::{Out, Sink, SinkFault, put};
pub use threshold::{Share, threshold_of};
