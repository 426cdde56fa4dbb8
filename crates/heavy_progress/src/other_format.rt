//! Whether texts that are read as records look like another format.

use crate::record_count::{Form, RecordCount};

/// What was seen in the first bytes of texts.
#[derive(Clone, Copy)]
pub struct FormatHints {
    /// Whether a text may have a record that is no header.
    pub has_records: bool,
    has_comma: bool,
    lines: u64,
    objects: u64,
    tabs: u64,
    semicolons: u64,
    bars: u64,
}

impl FormatHints {
    /// Begins with no text.
    pub fn new() -> FormatHints {
        FormatHints {
            has_records: false,
            has_comma: false,
            lines: 0,
            objects: 0,
            tabs: 0,
            semicolons: 0,
            bars: 0,
        }
    }

    /// Adds a line without its end. One with no bytes is none.
    fn add_line(&mut self, line: &[u8]) {
        if line.is_empty() {
            return;
        }
        let has = |byte: u8| u64::from(line.contains(&byte));
        self.lines = self.lines.saturating_add(1);
        self.objects = self
            .objects
            .saturating_add(u64::from(line.starts_with(b"{")));
        self.tabs = self.tabs.saturating_add(has(b'\t'));
        self.semicolons = self.semicolons.saturating_add(has(b';'));
        self.bars = self.bars.saturating_add(has(b'|'));
    }

    /// Adds the first `bytes` of a text, whose records have this `form`. Where they aren't `all` of
    /// it, it is taken to have records.
    pub fn add(&mut self, bytes: &[u8], are_all: bool, form: Form) {
        let mut count = RecordCount::new(form.delimiter);
        count.add(bytes);
        if !are_all || count.begun() > u64::from(form.has_header) {
            self.has_records = true;
        }
        self.has_comma = self.has_comma || bytes.contains(&b',');
        for line in bytes.split(|byte| matches!(byte, b'\r' | b'\n')) {
            self.add_line(line);
        }
    }

    /// Whether `lines` are more than half of the lines.
    fn are_most(self, lines: u64) -> bool {
        lines > self.lines / 2
    }

    /// Whether most lines begin as JSON objects, and no comma is in any.
    pub fn are_objects(self) -> bool {
        !self.has_comma && self.are_most(self.objects)
    }

    /// Gives what stands in most lines in place of a comma, which is in none, with the word for it.
    pub fn delimiter(self) -> Option<(&'static str, &'static str)> {
        if self.has_comma {
            None
        } else if self.are_most(self.tabs) {
            Some(("tab", "\\t"))
        } else if self.are_most(self.semicolons) {
            Some(("semicolon", ";"))
        } else if self.are_most(self.bars) {
            Some(("bar", "|"))
        } else {
            None
        }
    }
}
