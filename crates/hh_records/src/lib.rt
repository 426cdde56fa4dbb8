//! Records in, as CSV text: records of keys and weights are read one by one, and their items are
//! handed to what takes them.
//!
//! `hh_` is heavy hitters, the frequent keys.
#![tactic(auto)]

mod decimals;
mod format;
pub mod laws;
mod layout;
mod layout_words;
mod records;
mod texts;

pub use decimals::pointed;
pub use format::{Format, KeyPart};
pub use hh_faults::{BadRecordCause, TextError};
pub use hh_stream::TakeItems;
pub use layout::{BadAs, Column, ColumnIndices, Columns, Layout, column_of, delimiter_of};
pub use layout_words::{LayoutWords, layout_of};
pub use records::{Room, number_in, read_rows, take_parts, take_row};
pub use texts::{ReadRecords, gather_in_turn};
