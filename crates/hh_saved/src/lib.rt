//! Saved summaries and tables.
//!
//! A file is one spelling of one value, field by field, with all numbers big-endian: the four bytes
//! of the version, a kind, and then a counter summary or a Count-Min table. Nothing follows. There
//! are two versions, `HHS1` and `HHS2`: both are read, and the second is written.
#![tactic(auto)]

mod format;
pub mod laws;
mod offsets;
mod reading;
mod saved;
mod writing;

pub use format::Version;
pub use hh_faults::SavedFault;
pub use offsets::{Place, places};
pub use reading::read;
pub use saved::Saved;
pub use writing::write;
