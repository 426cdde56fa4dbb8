//! Standard input or a file, read once.

ghost use Rattle.std.specs.Prelude.{None};
ghost use Rattle.std.specs.Io.{ReadsAtMost};

use crate::notes::InputNotes;
use heavy_progress::{ProgressReader, Tail};
use hh_pieces::{GrowingFile, ReadAt};
use std::fs::{File, Metadata};
use std::io::{self, Read, Stdin};

/// What is read.
#[derive(Drop)]
pub(crate) enum InputSource {
    Standard(Stdin),
    /// A file of the disk that isn't empty, and the place up to which it was read.
    Disk(GrowingFile, u64),
    /// Another file.
    File(File),
    /// Standard input once more, of which the first one takes all.
    Nothing,
}

/// How many bytes a file has, where it is one of the disk.
pub(crate) fn len_in(metadata: &Metadata) -> Option<u64> {
    metadata.is_file().then_some(metadata.len())
}

/// How many bytes a file has, where it is one of the disk that isn't empty.
fn size_in(metadata: &Metadata) -> Option<u64> {
    match len_in(metadata) {
        Some(0) | None => None,
        len => len,
    }
}

/// Makes an open `file` ready to be read from its start. A `delimiter` is given where fields may
/// be quoted.
pub(crate) fn source_of(file: File, delimiter: Option<u8>) -> InputSource {
    match file.metadata() {
        Ok(metadata) if size_in(&metadata).is_some() => {
            InputSource::Disk(GrowingFile::new(file, &metadata, delimiter), 0)
        }
        _ => InputSource::File(file),
    }
}

/// Reads `file` on from the place `at`, and checks it where it ends.
fn read_on(file: &GrowingFile, at: &mut u64, buf: &mut [u8]) -> io::Result<usize>
    ensures bound { ReadsAtMost result buf.new }
{
    let count = file.read_at(buf, *at)?;
    if count == 0 {
        file.check()?;
    }
    *at = at.saturating_add(count as u64);
    Ok(count)
}

/// Standard input or a file, which notes its number and the error where it can't be read.
#[derive(Drop)]
pub struct Input<'a> {
    pub(crate) source: InputSource,
    /// Its place among the command line's files, from 1 on, and 0 where it has none.
    pub(crate) number: u64,
    /// What its number and its error go to.
    pub(crate) notes: &'a InputNotes,
    /// Whether its first bytes are kept there too, since it can't be read again.
    pub(crate) keeps_begin: bool,
    /// The byte between two fields; a quote, where no field is quoted.
    pub(crate) delimiter: u8,
    /// Its last bytes, up to its end, if it can't be read again.
    pub(crate) tail: Option<Tail>,
}

impl<'a> Input<'a> {
    /// Takes the next `bytes` for what is said of its end. None are the end.
    fn note_end(&mut self, bytes: &[u8]) {
        if !bytes.is_empty() {
            if let Some(tail) = &mut self.tail {
                tail.add(bytes);
            }
        } else if let Some(tail) = self.tail.take() {
            let endings = self.notes.endings.get();
            let ending = tail.ending(self.delimiter);
            self.notes.endings.set(endings.with(self.number, ending));
        }
    }

    /// Notes the `outcome` of a read into `buf`: its error, or the bytes for what keeps them.
    fn note(&mut self, outcome: &io::Result<usize>, buf: &[u8]) {
        let count = match outcome {
            Ok(count) => count,
            Err(error) => {
                self.notes.unread.note(self.number, error);
                return;
            }
        };
        if let Some(bytes) = buf.get(..*count) {
            if self.keeps_begin {
                self.notes.begin.add(self.number, bytes);
            }
            self.note_end(bytes);
        }
    }
}

impl<'a> Read for Input<'a> {
    ghost remaining = { λ _. None };

    fn read(&mut self, buf: &mut [u8]) -> io::Result<usize> {
        let outcome = match &mut self.source {
            InputSource::Standard(input) => input.read(buf),
            InputSource::Disk(file, at) => read_on(file, at, buf),
            InputSource::File(file) => file.read(buf),
            InputSource::Nothing => Ok(0),
        };
        self.note(&outcome, buf);
        outcome
    }
}

/// A reader of records, which reports its progress where that is asked for.
pub type Reader<'a> = ProgressReader<'a, Input<'a>>;
