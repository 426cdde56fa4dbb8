//! Exact reports of the heavy keys of large weighted streams, and saved summaries that are merged
//! and asked later: one call for each thing that the program does, and laws over several machines.
//! The calls stand in the crates below, which this one hands on. Those of `hh_library` that it
//! doesn't hand on are what the library for C is made of.
#![tactic(auto)]

pub mod laws;

pub use hh_commands::{
    Bounds, Comparison, Method, Outside, ask_rows, condense_bytes_from, confirm_rows,
    describe_file, list_rows, merge_bytes, summary_bytes_from, table_bytes_from,
};
pub use hh_counters::Heavy;
pub use hh_faults::{
    BadRecordCause, KeyCause, MergeCause, TextError, ToolError, Totals, TreeFault, WriteFault,
};
pub use hh_files::{
    condense_files, confirm_files, report_files, report_rows, run_report, summarise_files,
    table_files,
};
pub use hh_library::{
    add_items, ask_bytes, condense_bytes, confirm, confirm_bytes, summary_bytes, table_bytes,
};
pub use hh_pieces::{GrowingFile, ReadAt, Records, SourceRecords, read_stream};
pub use hh_pool::MAX_WORKERS;
pub use hh_records::{Column, Layout, LayoutWords, layout_of};
pub use hh_rows::{
    Form, Out, Output, ReportOptions, RowOptions, Share, Sink, SinkFault, Tree, put, report_text,
    write_report,
};
pub use hh_saved::Place;
pub use hh_stream::KeyHash;
