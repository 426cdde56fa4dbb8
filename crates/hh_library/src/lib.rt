//! The calls of the library that the program doesn't make: commands over the plain records of one
//! reader, the numbers of keys, a summary or a table that grows item by item, items counted by a
//! saved summary, and the places of entries in a saved file.
#![tactic(auto)]

mod accumulator;
mod commands;
mod hashing;
mod items;

pub use accumulator::Accumulator;
pub use commands::add::{add_items, empty_summary};
pub use commands::confirm::confirm;
pub use commands::count_items::{condense_items, confirm_items};
pub use commands::entries::list_entries;
pub use commands::grow_table::empty_table;
pub use commands::laid_out::{
    TextRecords, add_records, condense_bounded, confirm_bounded, report_bytes,
};
pub use commands::plain::{ask_bytes, condense_bytes, confirm_bytes, summary_bytes, table_bytes};
pub use commands::top::top_bytes;
pub use hashing::hash_of;
pub use items::item_fault;
