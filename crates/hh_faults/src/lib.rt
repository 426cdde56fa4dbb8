//! What stops the calls of the crates above, each with its text: why records, saved files and
//! output are refused, and [`ToolError`], which stops a command and has its exit status.
#![tactic(auto)]

mod error;
mod records;
mod saved;

pub use error::{KeyCause, MergeCause, ToolError, Totals, TreeFault, WriteFault};
pub use records::{BadRecordCause, TextError};
pub use saved::SavedFault;
