//! Files of records in pieces, which are read side by side: where they may be cut, and what each
//! piece reads as.
//!
//! `hh_` is heavy hitters, the frequent keys.
#![tactic(auto)]

mod columns;
mod cut_files;
mod cuts;
mod feeding;
mod fields;
mod growing;
mod key_parts;
pub mod laws;
mod lines;
mod long_record;
mod pieces;
mod read_at;
mod sources;
mod texts;
mod window;

pub use cut_files::CutFiles;
pub use cuts::{ends_outside_quotes, whole_records};
pub use growing::GrowingFile;
pub use read_at::ReadAt;
pub use sources::SourceRecords;
pub use texts::{Records, read_items, read_records, read_stream, read_texts};
