//! Where a record stands in the texts that it was read from.

use crate::escaped::Name;
use crate::file_names::input_name;
use crate::first_bytes::disk_file;
use heavy_progress::{Begin, RecordCount};
use heavy_requests::{RecordWords, split_fields};
use hh_records::{Format, delimiter_of};
use std::alloc::{AllocError, Global};
use std::fs::File;
use std::io::Read;

/// The bytes of the buffers in which a file is read.
const BUFFER: usize = 65_536;

/// The most bytes of a record that are kept.
const MOST_KEPT: usize = 65_536;

/// The most bytes of a record that are shown.
const MOST_SHOWN: usize = 60;

/// What may stand before a text, and is no part of it.
const MARK: &[u8] = b"\xef\xbb\xbf";

/// Gives the `bytes` of a text without the mark that may stand before it.
fn without_mark(bytes: &[u8]) -> &[u8] {
    bytes.strip_prefix(MARK).unwrap_or(bytes)
}

/// Splits the `bytes` of a record at each `delimiter`. Nothing is quoted.
fn split_plain(alloc: Global, delimiter: u8, bytes: &[u8]) -> Result<Vec<Vec<u8>>, AllocError> {
    let mut fields = Vec::new(alloc);
    let mut field = Vec::new(alloc);
    for byte in bytes {
        if *byte == delimiter {
            fields.push(field)?;
            field = Vec::new(alloc);
        } else {
            field.push(*byte)?;
        }
    }
    fields.push(field)?;
    Ok(fields)
}

/// Splits the `bytes` of a record at each `delimiter`, where several are one and those at its ends
/// are none.
fn split_squeezed(alloc: Global, delimiter: u8, bytes: &[u8]) -> Result<Vec<Vec<u8>>, AllocError> {
    let mut fields = Vec::new(alloc);
    for field in split_plain(alloc, delimiter, bytes)? {
        if !field.is_empty() {
            fields.push(field)?;
        }
    }
    Ok(fields)
}

/// Gives the `bytes` of a record as its only field.
fn whole(alloc: Global, bytes: &[u8]) -> Result<Vec<Vec<u8>>, AllocError> {
    let mut fields = Vec::new(alloc);
    fields.push(Vec::from_slice(alloc, bytes)?)?;
    Ok(fields)
}

/// A text of records: the name and the number of its input.
#[derive(Clone, Copy)]
pub(crate) struct Text<'a> {
    pub name: &'a [u8],
    /// Its place among the command line's files, from 1 on, and 0 where none is named.
    pub number: u64,
}

impl<'a> Text<'a> {
    /// Gives what it is called.
    pub(crate) fn called(self) -> Name<'a> {
        input_name(self.name, self.number)
    }

    /// Gives its file, where it is one of the disk.
    pub(crate) fn file(self, rt: &HostRuntime) -> Option<File> {
        if self.name == b"-".as_slice() {
            None
        } else {
            disk_file(rt, self.name)
        }
    }
}

/// Where a record stands, and how it begins.
#[derive(Drop)]
pub(crate) struct RecordPlace<'a> {
    /// The text that it stands in.
    pub text: Text<'a>,
    /// The line in which it begins, from 1 on.
    pub line: u64,
    bytes: Vec<u8>,
}

impl<'a> RecordPlace<'a> {
    /// Gives the first bytes of the record.
    pub(crate) fn begin(&self) -> &[u8] {
        match self.bytes.get(..MOST_SHOWN) {
            Some(bytes) => bytes,
            None => self.bytes.as_slice(),
        }
    }

    /// Whether the record has more of them.
    pub(crate) fn is_cut(&self) -> bool {
        self.bytes.len() > MOST_SHOWN
    }
}

/// A search for a record in the bytes of a text as they come.
#[derive(Drop)]
struct Search {
    /// The number of records before it.
    before: u64,
    records: RecordCount,
    line: u64,
    /// Whether the last byte was CR, with which a LF is one end of a line.
    after_return: bool,
    /// What came of the record.
    bytes: Vec<u8>,
}

impl Search {
    fn new(rt: &HostRuntime, before: u64, delimiter: u8) -> Search {
        Search {
            before,
            records: RecordCount::after_mark(delimiter),
            line: 1,
            after_return: false,
            bytes: Vec::new(rt.alloc()),
        }
    }

    /// Takes the next byte of the text, and says whether the record has come.
    fn take(&mut self, byte: u8) -> Result<bool, AllocError> {
        self.records.add(&[byte]);
        if self.records.ended() > self.before {
            return Ok(true);
        }
        if self.records.begun() > self.before {
            self.bytes.push(byte)?;
            return Ok(self.bytes.len() > MOST_KEPT);
        }
        if byte == b'\r' || (byte == b'\n' && !self.after_return) {
            self.line = self.line.saturating_add(1);
        }
        self.after_return = byte == b'\r';
        Ok(false)
    }

    /// Takes the next bytes, up to those with the record.
    fn take_all(&mut self, bytes: &[u8]) -> Result<bool, AllocError> {
        for byte in bytes {
            if self.take(*byte)? {
                return Ok(true);
            }
        }
        Ok(false)
    }

    /// Takes the bytes of `file`, up to those with the record, and says whether they are taken: not
    /// where the file can't be read or there is no memory.
    fn take_file(&mut self, alloc: Global, mut file: File) -> Option<()> {
        let mut buffer = vec![in alloc; 0u8; BUFFER].ok()?;
        for turn in 0..u64::MAX {
            let count = file.read(&mut buffer).ok()?;
            let bytes = buffer.get(..count)?;
            let text = if turn == 0 {
                without_mark(bytes)
            } else {
                bytes
            };
            if count == 0 || self.take_all(text).ok()? {
                return Some(());
            }
        }
        None
    }
}

/// What can be looked at again of the `records` that a command line names after `saved` files:
/// files of the disk, and the `begin` of another input.
#[derive(Clone, Copy)]
pub(crate) struct Texts<'a> {
    pub rt: &'a HostRuntime,
    pub records: &'a RecordWords,
    pub saved: u64,
    pub begin: &'a Begin,
}

impl<'a> Texts<'a> {
    /// Gives the text at `place`, from 0 on. Where no file is named, standard input is the only
    /// one.
    pub(crate) fn text(self, place: u64) -> Option<Text<'a>> {
        let files = &self.records.files;
        if files.is_empty() && place == 0 {
            return Some(Text {
                name: b"-",
                number: 0,
            });
        }
        Some(Text {
            name: files.get(place as usize)?.as_slice(),
            number: self.saved.saturating_add(place).saturating_add(1),
        })
    }

    /// Gives the byte between two fields of the records, which is `usual` where no option names it.
    fn delimiter(self, usual: u8) -> Option<u8> {
        match &self.records.layout.delimiter {
            None => Some(usual),
            Some(word) => match word.as_slice() {
                [byte] => Some(*byte),
                word => delimiter_of(word),
            },
        }
    }

    /// Splits the `bytes` of a record into its fields, but not those of an object.
    fn split(self, bytes: &[u8]) -> Option<Vec<Vec<u8>>> {
        let alloc = self.rt.alloc();
        let fields = match self.records.layout.format {
            Format::Csv => split_fields(alloc, self.delimiter(b',')?, bytes),
            Format::Unquoted => split_plain(alloc, self.delimiter(b',')?, bytes),
            Format::Squeezed => split_squeezed(alloc, self.delimiter(b' ')?, bytes),
            Format::Lines => whole(alloc, bytes),
            Format::Json => return None,
        };
        fields.ok()
    }

    /// Splits the record at `place` into its fields, where it is no object and isn't too long for
    /// that.
    pub(crate) fn fields_of(self, place: &RecordPlace<'_>) -> Option<Vec<Vec<u8>>> {
        if place.bytes.len() > MOST_KEPT {
            return None;
        }
        self.split(&place.bytes)
    }

    /// Takes the bytes of `text` into `search`, up to those with the record, and says whether they
    /// are taken: not where the text can't be looked at again.
    fn take_text(self, text: Text<'_>, search: &mut Search) -> Option<()> {
        if let Some(first) = self.begin.of(text.number) {
            let has_come = search.take_all(without_mark(&first.bytes)).ok()?;
            return (has_come || first.is_whole).then_some(());
        }
        search.take_file(self.rt.alloc(), text.file(self.rt)?)
    }

    /// Looks in `text` for the record after `before` others, where the text can be looked at
    /// again.
    fn search_in(self, text: Text<'_>, before: u64) -> Option<Search> {
        let mut search = Search::new(self.rt, before, self.records.parting_byte()?);
        match self.take_text(text, &mut search) {
            Some(()) => Some(search),
            None => None,
        }
    }

    /// Gives the names in the header of `text`, where it has one that can be looked at again.
    pub(crate) fn header_of(self, text: Text<'_>) -> Option<Vec<Vec<u8>>> {
        let header = self.search_in(text, 0)?.bytes;
        if !self.records.layout.has_header || header.is_empty() {
            return None;
        }
        self.split(&header)
    }

    /// Gives the place of the record `number`, from 1 on, if each text up to its own can be looked
    /// at again.
    pub(crate) fn place_of(self, number: u64) -> Option<RecordPlace<'a>> {
        let header = u64::from(self.records.layout.has_header);
        let mut before = number.checked_sub(1)?;
        for place in 0..u64::MAX {
            let text = self.text(place)?;
            let search = self.search_in(text, before.saturating_add(header))?;
            if !search.bytes.is_empty() {
                return Some(RecordPlace {
                    text,
                    line: search.line,
                    bytes: search.bytes,
                });
            }
            before = before.saturating_sub(search.records.begun().saturating_sub(header));
        }
        None
    }
}
