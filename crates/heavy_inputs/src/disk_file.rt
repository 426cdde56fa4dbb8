//! A file of the disk, which workers read.

ghost use Rattle.std.specs.Prelude.{None, ⊤};

use heavy_host::Unread;
use heavy_progress::SharedProgress;
use hh_pieces::{GrowingFile, ReadAt};
use std::io;

/// A file of the disk that is read at any place, by several workers at once. It notes its number
/// where a read fails, or where the file was changed while it was read.
#[derive(Drop)]
pub struct DiskFile<'a> {
    pub(crate) file: GrowingFile,
    /// Its place among the command line's files, from 1 on, and 0 where it has none.
    pub(crate) number: u64,
    /// What can't be read goes there.
    pub(crate) unread: &'a Unread,
    /// What was read goes there, where it is reported.
    pub(crate) progress: Option<&'a SharedProgress<'a>>,
}

impl<'a> ReadAt for DiskFile<'a> {
    ghost bytes = { λ _. None };

    ghost still = { λ _. ⊤ };

    fn len(&self) -> io::Result<u64> {
        self.file.len()
    }

    fn read_at(&self, buf: &mut [u8], at: u64) -> io::Result<usize> {
        let outcome = self.file.read_at(buf, at);
        match &outcome {
            Err(error) => self.unread.note(self.number, error),
            Ok(count) => {
                if let Some(progress) = self.progress {
                    progress.add(*count as u64);
                }
            }
        }
        outcome
    }

    fn check(&self) -> io::Result<()> {
        let outcome = self.file.check();
        if let Err(error) = &outcome {
            self.unread.note(self.number, error);
        }
        outcome
    }
}
