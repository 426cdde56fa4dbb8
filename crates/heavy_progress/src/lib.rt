//! What is reported of an input while it is read: how far it is, and how many records it has; by
//! its first bytes whether it looks like another format, and by its last ones whether a quote may
//! have taken its end; the first bytes of those that can't be read again; and how many rows were
//! written.
#![tactic(auto)]

mod begin;
mod last_record;
mod other_format;
mod progress;
mod record_count;
mod row_count;
mod tail;

pub use begin::{Begin, FirstBytes};
pub use last_record::{Ending, Endings, LongRecord, MOST_LAST, RecordSize};
pub use other_format::FormatHints;
pub use progress::{ProgressReader, ReadProgress, SharedProgress};
pub use record_count::{Form, RecordCount};
pub use row_count::{RowCount, RowWriter};
pub use tail::Tail;
