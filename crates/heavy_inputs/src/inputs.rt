//! Where records come from: standard input, or files that the command line names.

ghost use Rattle.std.specs.Prelude.{◌≡◌, ◌⊎◌, IfErr};
ghost use Rattle.heavy_host.specs.Opening.{FailsToOpen};

use crate::disk_file::DiskFile;
use crate::input::{Input, InputSource, Reader, len_in, source_of};
use crate::kept_pipe::keep_pipe;
use crate::notes::InputNotes;
use crate::open_file::OpenFile;
use heavy_host::{Named, open_input};
use heavy_progress::{Form, ProgressReader, SharedProgress, Tail};
use heavy_requests::Asked;
use hh_faults::ToolError;
use std::fs;

/// An input of records that is open.
#[derive(Drop)]
pub struct OpenInput {
    source: InputSource,
    /// Its place among the command line's files, from 1 on, and 0 where it has none.
    number: u64,
}

impl OpenInput {
    /// Whether it is a file of the disk that isn't empty, which can be read at any place.
    pub fn is_disk_file(&self) -> bool {
        matches!(self.source, InputSource::Disk(..))
    }
}

/// How the inputs of a command are opened.
#[derive(Clone, Copy)]
pub struct Inputs<'a> {
    pub rt: &'a HostRuntime,
    /// What is noted of them.
    pub notes: &'a InputNotes,
    /// The progress of workers, where it is reported.
    progress: Option<&'a SharedProgress<'a>>,
    /// Whether the first bytes of an input that can't be read again may be printed, and are kept.
    keeps_begin: bool,
    /// How records are parted.
    pub form: Form,
    /// How many bytes of a pipe are kept in memory, where it is read twice.
    most_kept: u64,
}

impl<'a> Inputs<'a> {
    /// Gathers how the inputs that `asked` names are opened, with what goes to `notes` and
    /// `progress` while they are read. It opens none of them: [`open`](Inputs::open) does, one at
    /// a time.
    pub fn new(
        rt: &'a HostRuntime,
        asked: &Asked,
        notes: &'a InputNotes,
        progress: Option<&'a SharedProgress<'a>>,
    ) -> Inputs<'a> {
        Inputs {
            rt,
            notes,
            progress,
            keeps_begin: asked.explains_faults(rt) || !asked.records.are_plain(),
            form: Form {
                delimiter: asked.records.parting_byte().unwrap_or(b','),
                has_header: asked.records.layout.has_header,
            },
            most_kept: asked.memory_bytes(),
        }
    }

    /// Opens the input `name` with its `number`. Standard input is empty where it `is_taken`.
    pub fn open(self, name: &[u8], number: u64, is_taken: bool) -> Result<OpenInput, ToolError>
        ensures refused { IfErr result (FailsToOpen name.now number) }
    {
        let source = match open_input(self.rt, name, number, is_taken, &self.notes.unread)? {
            Named::Standard => InputSource::Standard(self.rt.stdin()),
            Named::Nothing => InputSource::Nothing,
            Named::File(file) => source_of(file, self.form.quoted_by()),
        };
        Ok(OpenInput { source, number })
    }

    /// Makes a reader of an open `input`.
    pub fn reader(self, input: OpenInput) -> Reader<'a> {
        let size = self.len_of(&input.source);
        let is_read_once = !input.is_disk_file();
        let inner = Input {
            source: input.source,
            number: input.number,
            notes: self.notes,
            keeps_begin: self.keeps_begin && is_read_once,
            delimiter: self.form.delimiter,
            tail: is_read_once.then_some(Tail::new(self.rt.alloc())),
        };
        let all = match self.progress {
            Some(_) => Some(&self.notes.progress),
            None => None,
        };
        ProgressReader::new(self.rt, inner, size, self.form, all)
    }

    /// Makes of an open `input` what is read at any place: a file of the disk is read as it is, and
    /// all else is read to its end here, and kept.
    pub fn source(self, input: OpenInput) -> Result<OpenFile<'a>, ToolError>
        ensures refused { IfErr result (λ fault.
            (fault ≡ ToolError.Memory) ⊎ (fault ≡ ToolError.ReadFault)) }
    {
        let OpenInput { source, number } = input;
        match source {
            InputSource::Disk(file, _) => {
                Ok(OpenFile::Disk(DiskFile {
                    file,
                    number,
                    unread: &self.notes.unread,
                    progress: self.progress,
                }))
            }
            source => {
                let pipe = self.reader(OpenInput { source, number });
                let kept = keep_pipe(self.rt, pipe, self.most_kept, &self.notes.unread)?;
                Ok(OpenFile::Kept(kept))
            }
        }
    }

    /// How many bytes the file at `path` has, where it is one of the disk.
    fn len_at(self, path: &str) -> Option<u64> {
        match fs::metadata(self.rt, path) {
            Ok(metadata) => len_in(&metadata),
            Err(_) => None,
        }
    }

    /// How many bytes `source` has, where that is known before it is read.
    fn len_of(self, source: &InputSource) -> Option<u64> {
        match source {
            InputSource::Standard(_) => self.len_at("/dev/stdin"),
            InputSource::Disk(file, _) => Some(file.first_len()),
            InputSource::File(file) => len_in(&file.metadata().ok()?),
            InputSource::Nothing => Some(0),
        }
    }
}

/// Starts the progress of workers over the files of records, where `asked` wants it reported.
pub fn shared_progress<'a>(rt: &'a HostRuntime, asked: &Asked) -> Option<SharedProgress<'a>> {
    if !asked.tells_progress {
        return None;
    }
    SharedProgress::start(rt, &asked.records.files, asked.passes()).ok()
}
