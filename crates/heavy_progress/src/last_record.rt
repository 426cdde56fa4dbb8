//! How a text ends: whether a quote is open there, and whether its last record is long.

use crate::record_count::RecordState;

/// The most bytes at the end of a text by which this is said.
pub const MOST_LAST: usize = 65_536;

/// The bytes by which it is mostly known.
const FEW_LAST: usize = 512;

/// The most lines of a record that begins with a quote and isn't long.
const MOST_LINES: u64 = 100;

/// What the byte before the last ones of a text may have been part of.
const PLACES: [RecordState; 7] = [
    RecordState::Mark(1),
    RecordState::Mark(2),
    RecordState::Between,
    RecordState::FieldEnd,
    RecordState::Plain,
    RecordState::Quoted,
    RecordState::Quote,
];

/// The size of a record.
#[derive(Clone, Copy, PartialEq, Eq)]
pub struct RecordSize {
    pub bytes: u64,
    pub lines: u64,
}

/// How a text ends.
#[derive(Clone, Copy, PartialEq, Eq)]
pub struct Ending {
    /// Whether a quote is open.
    pub is_open: bool,
    /// The size of the last record, where it began with a quote and has more than 100 lines: a
    /// quote that is never closed takes the rest of a text.
    pub long: Option<RecordSize>,
}

/// The end of a text of which nothing is to be said.
const PLAIN: Ending = Ending {
    is_open: false,
    long: None,
};

/// Whether `byte` ends a line.
fn ends_line(byte: u8) -> bool {
    matches!(byte, b'\r' | b'\n')
}

/// Follows the last record of a text whose bytes come in order.
#[derive(Clone, Copy)]
struct LastRecord {
    delimiter: u8,
    place: RecordState,
    /// Whether its first byte came.
    has_begun: bool,
    /// Whether that is a quote.
    is_quoted: bool,
    size: RecordSize,
    /// The byte before the next one.
    previous: u8,
    /// Whether nothing but a delimiter or a line end came after a quoted field.
    is_sound: bool,
}

impl LastRecord {
    /// Begins after a byte that left `place`, with `delimiter` between the fields of the text.
    fn after(place: RecordState, delimiter: u8) -> LastRecord {
        LastRecord {
            delimiter,
            place,
            has_begun: false,
            is_quoted: false,
            size: RecordSize { bytes: 0, lines: 0 },
            previous: b'\n',
            is_sound: true,
        }
    }

    /// Begins a record with `byte`.
    fn begin(&mut self, byte: u8) {
        self.has_begun = true;
        self.is_quoted = byte == b'"';
        self.size = RecordSize { bytes: 1, lines: 1 };
    }

    /// Adds `byte` to the record, with the line that it begins.
    fn extend(&mut self, byte: u8) {
        self.size.bytes = self.size.bytes.saturating_add(1);
        if ends_line(self.previous) && !(self.previous == b'\r' && byte == b'\n') {
            self.size.lines = self.size.lines.saturating_add(1);
        }
    }

    /// Takes the next byte.
    fn take(&mut self, byte: u8) {
        let next = self.place.after(byte, self.delimiter);
        if next.is_in_record() {
            if self.place.is_in_record() {
                self.extend(byte);
            } else {
                self.begin(byte);
            }
        }
        if matches!((self.place, next), (RecordState::Quote, RecordState::Plain)) {
            self.is_sound = false;
        }
        self.previous = byte;
        self.place = next;
    }

    /// Takes the next bytes.
    fn take_all(&mut self, bytes: &[u8]) {
        for byte in bytes {
            self.take(*byte);
        }
    }

    /// Gives how the text ends with the bytes that came.
    fn ending(&self) -> Ending {
        let is_long = self.is_quoted && self.size.lines > MOST_LINES;
        Ending {
            is_open: matches!(self.place, RecordState::Quoted),
            long: is_long.then_some(self.size),
        }
    }
}

/// Gives how a text ends by its last `bytes`, where the same comes of whatever the byte before them
/// was part of, and the last record begins among them. What makes a quoted field go on after its
/// end is left out.
fn ending_after_any(bytes: &[u8], delimiter: u8) -> Option<Ending> {
    let mut found = None;
    for place in &PLACES {
        let mut last = LastRecord::after(*place, delimiter);
        last.take_all(bytes);
        if last.is_sound {
            let ending = last.ending();
            if !last.has_begun || found.unwrap_or(ending) != ending {
                return None;
            }
            found = Some(ending);
        }
    }
    found
}

/// Gives the last bytes of `bytes`: at most `most`.
pub(crate) fn last_of(bytes: &[u8], most: usize) -> &[u8] {
    bytes
        .get(bytes.len().saturating_sub(most)..)
        .unwrap_or(bytes)
}

/// Gives how a text ends by all of its `bytes`.
fn ending_of_all(bytes: &[u8], delimiter: u8) -> Ending {
    let mut last = LastRecord::after(RecordState::Mark(0), delimiter);
    last.take_all(bytes);
    last.ending()
}

impl Ending {
    /// Says how a text ends by its last `bytes`, which are all of it if `are_all`. `delimiter`
    /// stands between its fields; it is a quote, where no field is quoted. Where the bytes leave
    /// open how the last record began, nothing is said.
    pub fn of(bytes: &[u8], are_all: bool, delimiter: u8) -> Ending {
        if delimiter == b'"' || !bytes.contains(&b'"') {
            return PLAIN;
        }
        if are_all {
            return ending_of_all(bytes, delimiter);
        }
        match ending_after_any(last_of(bytes, FEW_LAST), delimiter) {
            Some(ending) => ending,
            None => ending_after_any(bytes, delimiter).unwrap_or(PLAIN),
        }
    }
}

/// The last record of a text, where it is long.
#[derive(Clone, Copy)]
pub struct LongRecord {
    /// The number of its text.
    pub number: u64,
    pub size: RecordSize,
}

/// How texts end.
#[derive(Clone, Copy)]
pub struct Endings {
    /// The number of the first text at whose end a quote is open.
    pub open: Option<u64>,
    /// The first last record that is long.
    pub long: Option<LongRecord>,
}

impl Endings {
    /// Begins with no text.
    pub fn new() -> Endings {
        Endings {
            open: None,
            long: None,
        }
    }

    /// Adds how the text `number` ends.
    pub fn with(self, number: u64, ending: Ending) -> Endings {
        let open = ending.is_open.then_some(number);
        let long = match ending.long {
            Some(size) => Some(LongRecord { number, size }),
            None => None,
        };
        Endings {
            open: self.open.or(open),
            long: self.long.or(long),
        }
    }
}
