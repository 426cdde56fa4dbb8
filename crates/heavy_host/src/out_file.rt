//! The file of the machine to which an answer goes.

ghost use Rattle.std.specs.Prelude.{None, true};
ghost use Rattle.heavy_host.specs.Replacing.{IsUnwritten};

use crate::opening::is_standard;
use crate::replacing::Replaced;
use crate::unread::Unread;
use hh_faults::ToolError;
use std::fs::{self, File, FileType};
use std::io;
use std::os::unix::fs::FileTypeExt;
use std::path::PathBuf;
use std::random::RandomSource;

/// The most links that are followed, as by the system.
const MOST_LINKS: u32 = 40;

/// The system's number of the error that a name leads through more links.
const TOO_MANY_LINKS: i32 = 40;

/// Gives a name that no file is likely to have: a random number makes it.
pub fn random_name(rt: &HostRuntime) -> io::Result<String> {
    let mut random = [0; 8];
    rt.fill_bytes(&mut random)?;
    let number = u64::from_le_bytes(random);
    Ok(format!(in rt.alloc(); "heavy-{number:016x}")?)
}

/// What a name stands for that is no file, so that no new one takes its place.
#[derive(Clone, Copy)]
pub enum OtherKind {
    Standard,
    Folder,
    Device,
    Pipe,
    Socket,
}

/// Why no answer goes to the file of a name.
#[derive(Drop)]
pub enum NoOut {
    /// The name is that of something else.
    Other(OtherKind),
    /// A file can't be made there.
    Fault(ToolError),
}

/// Gives what a file of this type is, where it is no file with bytes of its own.
fn other_kind(found: FileType) -> Option<OtherKind> {
    if found.is_dir() {
        Some(OtherKind::Folder)
    } else if found.is_fifo() {
        Some(OtherKind::Pipe)
    } else if found.is_socket() {
        Some(OtherKind::Socket)
    } else if found.is_file() {
        None
    } else {
        Some(OtherKind::Device)
    }
}

/// Follows the links that `name` leads through, also to a file that isn't there yet.
fn led_to(rt: &HostRuntime, name: &str) -> io::Result<PathBuf> {
    let mut path = PathBuf::from_str(rt.alloc(), name)?;
    for _ in 0..MOST_LINKS {
        let Ok(next) = fs::read_link(rt, path.as_path()) else {
            return Ok(path);
        };
        path.pop();
        path.push(next.as_path())?;
    }
    Err(io::Error::from_raw_os_error(TOO_MANY_LINKS))
}

/// A file that is written as a whole, or not at all.
#[derive(Drop)]
pub struct OutFile<'a> {
    rt: &'a HostRuntime,
    /// Where it is noted why the file can't be written.
    unread: &'a Unread,
    path: PathBuf,
    /// The new file beside it, where there is one.
    beside: Option<PathBuf>,
}

impl<'a> OutFile<'a> {
    /// Finds the file `name`, which need not be there yet. A new file is made beside it and removed
    /// again, so that a folder in which none can be made is refused here. Why one can't be made is
    /// noted in `unread`.
    pub fn find(
        rt: &'a HostRuntime,
        name: &[u8],
        unread: &'a Unread,
    ) -> Result<OutFile<'a>, NoOut> {
        if is_standard(name) {
            return Err(NoOut::Other(OtherKind::Standard));
        }
        let Ok(name) = str::from_utf8(name) else {
            return Err(NoOut::Fault(ToolError::WriteFault { written: 0 }));
        };
        if let Ok(metadata) = fs::metadata(rt, name) {
            if let Some(kind) = other_kind(metadata.file_type()) {
                return Err(NoOut::Other(kind));
            }
        }
        match OutFile::tried(rt, name, unread) {
            Ok(file) => Ok(file),
            Err(error) => Err(NoOut::Fault(unwritten(unread, &error))),
        }
    }

    /// Makes a new file beside the file `name`, and removes it.
    fn tried(rt: &'a HostRuntime, name: &str, unread: &'a Unread) -> io::Result<OutFile<'a>> {
        let mut file = OutFile {
            rt,
            unread,
            path: led_to(rt, name)?,
            beside: None,
        };
        file.create()?;
        file.remove();
        Ok(file)
    }
}

/// Notes the `error` of a new file in `unread`, and gives the fault that it is.
fn unwritten(unread: &Unread, error: &io::Error) -> ToolError
    ensures { IsUnwritten result }
{
    unread.note(0, error);
    match error.kind() {
        io::ErrorKind::OutOfMemory => ToolError::Memory,
        _ => ToolError::WriteFault { written: 0 },
    }
}

/// A new file that the disk has all of.
#[derive(Drop)]
pub struct Flushed {
    _file: File,
}

/// The files of the machine. No contract says what a file has.
impl<'a> Replaced for OutFile<'a> {
    type New = File;

    type Flushed = Flushed;

    ghost holds = { λ _. None };

    ghost text = { λ _. None };

    ghost is_alone = { λ _. true };

    fn create(&mut self) -> io::Result<File> {
        let name = random_name(self.rt)?;
        let hidden = format!(in self.rt.alloc(); ".{name}")?;
        let mut path = PathBuf::new(self.rt.alloc());
        path.push(self.path.as_path())?;
        path.set_file_name(&hidden)?;
        let file = File::create_new(self.rt, path.as_path())?;
        self.beside = Some(path);
        Ok(file)
    }

    fn flush(&self, new: File) -> io::Result<Flushed> {
        new.sync_all()?;
        Ok(Flushed { _file: new })
    }

    fn put(&mut self, new: Flushed) -> io::Result<()> {
        let _new = new;
        if let Some(beside) = &self.beside {
            fs::rename(self.rt, beside.as_path(), self.path.as_path())?;
        }
        self.beside = None;
        Ok(())
    }

    fn remove(&mut self) {
        if let Some(beside) = self.beside.take() {
            let _ = fs::remove_file(self.rt, beside.as_path());
        }
    }

    fn fault(&self, error: &io::Error) -> ToolError {
        unwritten(self.unread, error)
    }
}
