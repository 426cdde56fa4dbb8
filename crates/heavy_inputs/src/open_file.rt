//! An input that is read more than once.

ghost use Rattle.std.specs.Prelude.{◌≡◌, None, false, ⊤};
ghost use Rattle.heavy_inputs.specs.Inputs.{open_bytes};

use crate::disk_file::DiskFile;
use crate::kept_pipe::KeptPipe;
use hh_pieces::ReadAt;
use std::io;

/// An input that is read at any place, any number of times.
#[derive(Drop)]
pub enum OpenFile<'a> {
    Disk(DiskFile<'a>),
    Kept(KeptPipe),
}

impl<'a> OpenFile<'a> {
    /// Whether all of it could be read so far. What a pipe gave before it failed is not all of it.
    pub fn is_whole(&self) -> bool
        ensures part { result ≡ false → open_bytes self.now ≡ None }
    {
        match self {
            OpenFile::Disk(_) => true,
            OpenFile::Kept(pipe) => pipe.is_whole(),
        }
    }
}

impl<'a> ReadAt for OpenFile<'a> {
    ghost bytes = { open_bytes };

    ghost still = { λ _. ⊤ };

    fn len(&self) -> io::Result<u64> {
        match self {
            OpenFile::Disk(file) => file.len(),
            OpenFile::Kept(pipe) => pipe.len(),
        }
    }

    fn read_at(&self, buf: &mut [u8], at: u64) -> io::Result<usize> {
        match self {
            OpenFile::Disk(file) => file.read_at(buf, at),
            OpenFile::Kept(pipe) => pipe.read_at(buf, at),
        }
    }

    fn check(&self) -> io::Result<()> {
        match self {
            OpenFile::Disk(file) => file.check(),
            OpenFile::Kept(pipe) => pipe.check(),
        }
    }
}
