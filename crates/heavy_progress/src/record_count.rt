//! How many records a text of records has, counted as its bytes come.

/// What parts the fields of a text of records, and whether its first record is a header.
#[derive(Clone, Copy)]
pub struct Form {
    /// The byte between two fields; a quote, where no field is quoted.
    pub delimiter: u8,
    pub has_header: bool,
}

impl Form {
    /// Gives the byte between fields that may be quoted, if they may.
    pub fn quoted_by(&self) -> Option<u8> {
        (self.delimiter != b'"').then_some(self.delimiter)
    }
}

/// What the byte before the next one was part of.
#[derive(Clone, Copy, PartialEq, Eq)]
pub(crate) enum RecordState {
    /// In a byte order mark, with the number of its bytes that came. The text begins after it.
    Mark(u8),
    /// The end of a record, or nothing yet.
    Between,
    /// The end of a field.
    FieldEnd,
    /// A field without quotes.
    Plain,
    /// A quoted field.
    Quoted,
    /// A quote in a quoted field: its end, or the first half of a quote that stands for itself.
    Quote,
}

impl RecordState {
    /// Gives the place after `byte`.
    pub(crate) fn after(self, byte: u8, delimiter: u8) -> RecordState {
        match (self, byte) {
            (RecordState::Mark(0), b'\xef') => RecordState::Mark(1),
            (RecordState::Mark(1), b'\xbb') => RecordState::Mark(2),
            (RecordState::Mark(2), b'\xbf') => RecordState::Between,
            (RecordState::Mark(0), _) => RecordState::Between.in_text(byte, delimiter),
            (RecordState::Mark(_), _) => RecordState::Plain.in_text(byte, delimiter),
            (place, _) => place.in_text(byte, delimiter),
        }
    }

    /// Gives the place after `byte` where no byte order mark can be.
    fn in_text(self, byte: u8, delimiter: u8) -> RecordState {
        if matches!(self, RecordState::Quoted) {
            return if byte == b'"' {
                RecordState::Quote
            } else {
                RecordState::Quoted
            };
        }
        match byte {
            b'\r' | b'\n' => RecordState::Between,
            _ if byte == delimiter => RecordState::FieldEnd,
            b'"' if !matches!(self, RecordState::Plain) => RecordState::Quoted,
            _ => RecordState::Plain,
        }
    }

    /// Whether a record has begun and not ended.
    pub(crate) fn is_in_record(self) -> bool {
        !matches!(self, RecordState::Mark(0) | RecordState::Between)
    }
}

/// The number of records in the bytes that came, after a byte order mark. A line feed in quotes
/// ends none, and an empty line is none.
#[derive(Drop)]
pub struct RecordCount {
    delimiter: u8,
    ended: u64,
    place: RecordState,
}

impl RecordCount {
    /// Begins with no bytes. `delimiter` stands between two fields.
    pub fn new(delimiter: u8) -> RecordCount {
        RecordCount {
            delimiter,
            ended: 0,
            place: RecordState::Mark(0),
        }
    }

    /// Counts the records of a text whose byte order mark was taken before.
    pub fn after_mark(delimiter: u8) -> RecordCount {
        RecordCount {
            delimiter,
            ended: 0,
            place: RecordState::Between,
        }
    }

    /// Takes the next bytes.
    pub fn add(&mut self, bytes: &[u8]) {
        for byte in bytes {
            let next = self.place.after(*byte, self.delimiter);
            if matches!(byte, b'\r' | b'\n')
                && matches!(next, RecordState::Between)
                && self.place.is_in_record()
            {
                self.ended = self.ended.saturating_add(1);
            }
            self.place = next;
        }
    }

    /// Counts the records that are ended.
    pub fn ended(&self) -> u64 {
        self.ended
    }

    /// Counts the records that are ended, and the one that has begun.
    pub fn begun(&self) -> u64 {
        self.ended
            .saturating_add(u64::from(self.place.is_in_record()))
    }
}
