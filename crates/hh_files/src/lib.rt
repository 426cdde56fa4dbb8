//! Files of any size, which workers read in pieces in threads of their own: exact reports of them,
//! and the passes that make a summary or a table, confirm a summary and condense records; reports by
//! a plan, of records that are kept, and by one reading, of records that aren't.
#![tactic(auto)]

mod by_plan;
mod by_workers;
mod condensing;
mod confirming;
mod crew;
mod file_passes;
mod file_pieces;
mod once;
mod reporting;
mod summarising;
mod tabulating;
mod topping;

pub use by_plan::{check_options, report_rows, run_report};
pub use condensing::condense_files;
pub use confirming::confirm_files;
pub use once::report_once;
pub use reporting::report_files;
pub use summarising::summarise_files;
pub use tabulating::table_files;
pub use topping::{TopOptions, top_files};
