//! The commands of the program that start no thread, over records that are read once and over saved
//! files, and what those that start threads share with them.
#![tactic(auto)]

mod commands;
mod compared;
mod counting;
mod files;

pub use commands::ask::{answer_of, ask_rows, bounds_in, check_key, read_for_keys, slack_of};
pub use commands::condense::{
    condense_bytes_from, condensed_counts, condensed_part, condensed_rows,
};
pub use commands::confirm::{confirm_rows, confirmed_text, rows_above};
pub use commands::describe::describe_file;
pub use commands::list::list_rows;
pub use commands::merge::{merge_bytes, merge_saved};
pub use commands::summarise::{Method, summary_by_monitoring, summary_bytes_from};
pub use commands::table::{drawn_table, table_bytes_from};
pub use compared::{Bounds, Comparison, Outside, key_outside};
pub use counting::count_records;
pub use files::{file_of, summary_in};
