//! Files of the disk, which may grow while they are read.

ghost use Rattle.std.specs.Prelude.{None, ⊤};

use crate::cuts::{QuoteState, is_open, mark_len, place_next};
use crate::read_at::ReadAt;
use std::fs::{File, Metadata};
use std::io::{self, Error, ErrorKind};
use std::os::unix::fs::{FileExt, MetadataExt};
use std::sync::atomic::{AtomicU64, Ordering};

/// The end of a file of which no reader has come to the length that it had when it was opened.
const NO_END: u64 = u64::MAX;

/// How many bytes are read at once where the end of a record is looked for.
const LOOK_LEN: usize = 4096;

/// When a file was changed last, in seconds and nanoseconds.
fn time_of(metadata: &Metadata) -> (i64, i64) {
    (metadata.mtime(), metadata.mtime_nsec())
}

/// How far the records of a file were followed: what a quote does there, and whether a record has
/// ended.
#[derive(Clone, Copy)]
struct RecordPlace {
    quotes: QuoteState,
    has_ended: bool,
}

impl RecordPlace {
    /// The start of a file.
    fn start() -> RecordPlace {
        RecordPlace {
            quotes: QuoteState::Start,
            has_ended: true,
        }
    }

    /// The place after `byte`. Fields may be quoted where a `delimiter` is given.
    fn after(self, byte: u8, delimiter: Option<u8>) -> RecordPlace {
        let ends_line = byte == b'\r' || byte == b'\n';
        RecordPlace {
            quotes: match delimiter {
                Some(delimiter) => place_next(self.quotes, byte, delimiter),
                None => QuoteState::Start,
            },
            has_ended: ends_line && is_open(self.quotes),
        }
    }

    /// The place after `bytes`.
    fn after_all(self, bytes: &[u8], delimiter: Option<u8>) -> RecordPlace {
        let mut place = self;
        for byte in bytes {
            place = place.after(*byte, delimiter);
        }
        place
    }

    /// Finds how many of `bytes` there are up to the first one that ends a record, and with it.
    fn end_in(&mut self, bytes: &[u8], delimiter: Option<u8>) -> Option<usize> {
        for (place, byte) in bytes.iter().enumerate() {
            *self = self.after(*byte, delimiter);
            if self.has_ended {
                return Some(place.saturating_add(1));
            }
        }
        None
    }
}

/// A file of the disk, which is read up to the length that it had when it was opened. Where it has
/// grown by the time that the first reader comes there, and a record goes on, it is read on up to
/// where that ends, and all readers end in that place: no half-written record is read. A file whose
/// record hasn't ended by then fails, and so does one that has become shorter, or was written to
/// and hasn't grown: a read, or [`check`](ReadAt::check).
#[derive(Drop)]
pub struct GrowingFile {
    file: File,
    len: u64,
    changed: (i64, i64),
    delimiter: Option<u8>,
    end: AtomicU64,
}

impl GrowingFile {
    /// Takes an open `file`, of which `metadata` has what the system says of it. Its records end
    /// where its lines do, but within the quotes of fields, if there is a `delimiter` between
    /// fields that may be quoted.
    pub fn new(file: File, metadata: &Metadata, delimiter: Option<u8>) -> GrowingFile {
        GrowingFile {
            file,
            len: metadata.len(),
            changed: time_of(metadata),
            delimiter,
            end: AtomicU64::new(NO_END),
        }
    }

    /// How many bytes it had when it was opened.
    pub fn first_len(&self) -> u64 {
        self.len
    }

    /// Reads the bytes at `at` into `buffer`, but none behind where the file ended when it was
    /// opened.
    fn read_before_end<'b>(&self, buffer: &'b mut [u8], at: u64) -> io::Result<&'b [u8]> {
        let room = self.len.saturating_sub(at).min(buffer.len() as u64) as usize;
        let count = FileExt::read_at(&self.file, &mut buffer[..room], at)?;
        if count == 0 && room > 0 {
            return Err(Error::from(ErrorKind::UnexpectedEof));
        }
        Ok(&buffer[..count])
    }

    /// Follows the records up to where the file ended when it was opened: the last line alone, if
    /// no field is quoted.
    fn place_at_end(&self) -> io::Result<RecordPlace> {
        let mut buffer = [0u8; LOOK_LEN];
        let mut place = RecordPlace::start();
        let mut at = match self.delimiter {
            Some(_) => 0,
            None => self.len.saturating_sub(1),
        };
        for _ in 0..u64::MAX {
            let bytes = self.read_before_end(&mut buffer, at)?;
            if bytes.is_empty() {
                break;
            }
            let mark = if at == 0 { mark_len(bytes) } else { 0 };
            place = place.after_all(&bytes[mark..], self.delimiter);
            at = at.saturating_add(bytes.len() as u64);
        }
        Ok(place)
    }

    /// Finds where the record ends that goes on at `place`, where the file ended when it was
    /// opened.
    fn end_after(&self, mut place: RecordPlace) -> io::Result<u64> {
        let mut buffer = [0u8; LOOK_LEN];
        let mut at = self.len;
        for _ in 0..u64::MAX {
            let count = FileExt::read_at(&self.file, &mut buffer, at)?;
            if let Some(end) = place.end_in(&buffer[..count], self.delimiter) {
                return Ok(at.saturating_add(end as u64));
            }
            if count == 0 {
                break;
            }
            at = at.saturating_add(count as u64);
        }
        Err(Error::from(ErrorKind::UnexpectedEof))
    }

    /// Whether the file has more bytes than when it was opened.
    fn has_grown(&self) -> io::Result<bool> {
        let mut byte = [0u8; 1];
        Ok(FileExt::read_at(&self.file, &mut byte, self.len)? > 0)
    }

    /// Finds where a record ends that stands where the file ended when it was opened, or that very
    /// place, if none goes on there.
    fn record_end(&self) -> io::Result<u64> {
        if !self.has_grown()? {
            return Ok(self.len);
        }
        let place = self.place_at_end()?;
        if place.has_ended {
            return Ok(self.len);
        }
        self.end_after(place)
    }

    /// Where all readers end. The first that asks for it sets it.
    fn end(&self) -> io::Result<u64> {
        let end = self.end.load(Ordering::SeqCst);
        if end != NO_END {
            return Ok(end);
        }
        let found = self.record_end()?;
        match self
            .end
            .compare_exchange(NO_END, found, Ordering::SeqCst, Ordering::SeqCst)
        {
            Ok(_) => Ok(found),
            Err(end) => Ok(end),
        }
    }
}

// Nothing is known of a file's bytes: it may change between two reads.
impl ReadAt for GrowingFile {
    ghost bytes = { λ _. None };

    ghost still = { λ _. ⊤ };

    fn len(&self) -> io::Result<u64> {
        Ok(self.len)
    }

    fn read_at(&self, buf: &mut [u8], at: u64) -> io::Result<usize> {
        let end = if at < self.len { self.len } else { self.end()? };
        let room = end.saturating_sub(at).min(buf.len() as u64) as usize;
        if room == 0 {
            return Ok(0);
        }
        let count = FileExt::read_at(&self.file, &mut buf[..room], at)?;
        if count == 0 {
            return Err(Error::from(ErrorKind::UnexpectedEof));
        }
        Ok(count)
    }

    fn check(&self) -> io::Result<()> {
        let metadata = self.file.metadata()?;
        let end = match self.end.load(Ordering::SeqCst) {
            NO_END => self.len,
            end => end,
        };
        let is_shorter = metadata.len() < end;
        if is_shorter || (metadata.len() == self.len && time_of(&metadata) != self.changed) {
            return Err(Error::from(ErrorKind::InvalidData));
        }
        Ok(())
    }
}
