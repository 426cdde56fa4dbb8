//! How many rows were written.

ghost use Rattle.std.specs.Prelude.{◌≡◌};

use crate::record_count::RecordCount;
use std::cell::RefCell;
use std::io::{self, Write};

/// The number of rows that were written, whatever their form.
#[derive(Drop)]
pub struct RowCount {
    rows: RefCell<RecordCount>,
}

impl RowCount {
    /// Begins with no rows.
    pub fn new() -> RowCount {
        RowCount {
            rows: RefCell::new(RecordCount::after_mark(b',')),
        }
    }

    /// Takes the next `bytes` that were written.
    pub fn add(&self, bytes: &[u8]) {
        if let Ok(mut rows) = self.rows.try_borrow_mut() {
            rows.add(bytes);
        }
    }

    /// Counts the rows whose ends were written.
    pub fn number(&self) -> u64 {
        match self.rows.try_borrow() {
            Ok(rows) => rows.ended(),
            Err(_) => 0,
        }
    }
}

/// A writer that counts the rows of what it hands on.
#[derive(Drop)]
pub struct RowWriter<'a, W> {
    inner: W,
    rows: &'a RowCount,
}

impl<'a, W: Write> RowWriter<'a, W> {
    /// Hands on to `inner`, and counts in `rows`.
    pub fn new(inner: W, rows: &'a RowCount) -> RowWriter<'a, W>
        ensures { ⟦<RowWriter<'a, W> as Write>⟧.contents result ≡ W.contents inner }
    {
        RowWriter { inner, rows }
    }
}

impl<'a, W: Write> Write for RowWriter<'a, W> {
    ghost contents = { λ writer. W.contents writer.inner };

    fn write(&mut self, buf: &[u8]) -> io::Result<usize> {
        let count = self.inner.write(buf)?;
        self.rows.add(&buf[..count]);
        Ok(count)
    }

    fn flush(&mut self) -> io::Result<()> {
        self.inner.flush()
    }
}
