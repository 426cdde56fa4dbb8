//! Keeps what a pipe gives, where its records are read more than once.

ghost use Rattle.std.specs.Prelude.{◌≡◌, ◌⊎◌, IfErr, ⊤};

use heavy_host::{Unread, random_name};
use hh_faults::ToolError;
use hh_pieces::ReadAt;
use hh_stream::retrying::Retrying;
use std::env;
use std::fs::{self, File, OpenOptions};
use std::io::{self, Read, Write};
use std::os::unix::fs::{FileExt, OpenOptionsExt};

/// How many bytes go to a file at once.
const COPY_LEN: usize = 65_536;

/// The bytes that a pipe gave.
#[derive(Drop)]
pub(crate) enum KeptBytes {
    Memory(Vec<u8>),
    /// A file of the temporary folder, which has no name, with its length.
    File(File, u64),
}

/// What a pipe gave, which is kept because it is read twice.
#[derive(Drop)]
pub struct KeptPipe {
    bytes: KeptBytes,
    /// Whether the pipe came to its end. Where it could not be read to there, a reader fails after
    /// its bytes.
    is_whole: bool,
}

impl KeptPipe {
    ghost use Rattle.std.specs.Prelude.{None, false};
    ghost use Rattle.heavy_inputs.specs.Inputs.{kept_bytes};

    /// Whether the pipe came to its end.
    pub fn is_whole(&self) -> bool
        ensures part { result ≡ false → kept_bytes self.now ≡ None }
    {
        self.is_whole
    }
}

impl ReadAt for KeptPipe {
    ghost use Rattle.heavy_inputs.specs.Inputs.{kept_bytes};

    ghost bytes = { kept_bytes };

    ghost still = { λ _. ⊤ };

    fn len(&self) -> io::Result<u64> {
        match &self.bytes {
            KeptBytes::Memory(bytes) => ReadAt::len(bytes),
            KeptBytes::File(_, len) => Ok(*len),
        }
    }

    fn read_at(&self, buf: &mut [u8], at: u64) -> io::Result<usize> {
        let count = match &self.bytes {
            KeptBytes::Memory(bytes) => bytes.read_at(buf, at)?,
            KeptBytes::File(file, _) => FileExt::read_at(file, buf, at)?,
        };
        if count == 0 && !self.is_whole {
            return Err(io::Error::from(io::ErrorKind::UnexpectedEof));
        }
        Ok(count)
    }

    fn check(&self) -> io::Result<()> {
        Ok(())
    }
}

/// Gives the folder in which a pipe is kept.
pub fn temporary_folder(rt: &HostRuntime) -> io::Result<String> {
    match env::var(rt, "TMPDIR") {
        Ok(folder) => Ok(folder),
        Err(_) => Ok(String::from_str(rt.alloc(), "/tmp")?),
    }
}

/// Gives a path in the temporary folder, with a random number in its name.
fn temporary_path(rt: &HostRuntime) -> io::Result<String> {
    let name = random_name(rt)?;
    let folder = temporary_folder(rt)?;
    Ok(format!(in rt.alloc(); "{folder}/{name}")?)
}

/// Makes a file of the temporary folder, and removes its name at once.
fn unnamed_file(rt: &HostRuntime) -> io::Result<File> {
    let path = temporary_path(rt)?;
    let file = OpenOptions::new()
        .read(true)
        .write(true)
        .create_new(true)
        .mode(0o600)
        .open(rt, path.as_str())?;
    fs::remove_file(rt, path.as_str())?;
    Ok(file)
}

/// Writes `first` and then what `pipe` has left to a file, as far as the pipe can be read.
fn keep_in_file<R: Read + Drop>(
    rt: &HostRuntime,
    first: &[u8],
    mut pipe: R,
) -> io::Result<KeptPipe> {
    let mut file = unnamed_file(rt)?;
    file.write_all(first)?;
    let mut buffer = vec![in rt.alloc(); 0u8; COPY_LEN]?;
    let (mut len, mut is_whole) = (first.len() as u64, true);
    for _ in 0..u64::MAX {
        match pipe.read(&mut buffer) {
            Ok(0) => break,
            Ok(count) => {
                file.write_all(buffer.get(..count).unwrap_or(&[]))?;
                len = len.saturating_add(count as u64);
            }
            Err(_) => {
                is_whole = false;
                break;
            }
        }
    }
    let bytes = KeptBytes::File(file, len);
    Ok(KeptPipe { bytes, is_whole })
}

/// Reads `pipe` to its end, or as far as it can be read, and keeps what it gave: in memory where
/// that is at most `most` bytes, and else in a file. Where there is no room for the file, the error
/// is noted in `unread`.
pub(crate) fn keep_pipe<R: Read + Drop>(
    rt: &HostRuntime,
    pipe: R,
    most: u64,
    unread: &Unread,
) -> Result<KeptPipe, ToolError>
    ensures refused { IfErr result (λ fault.
        (fault ≡ ToolError.Memory) ⊎ (fault ≡ ToolError.ReadFault)) }
{
    let mut pipe = Retrying::new(pipe);
    let mut bytes = Vec::new(rt.alloc());
    let is_whole = match (&mut pipe)
        .take(most.saturating_add(1))
        .read_to_end(&mut bytes)
    {
        Ok(_) => true,
        Err(error) if matches!(error.kind(), io::ErrorKind::OutOfMemory) => {
            return Err(ToolError::Memory);
        }
        Err(_) => false,
    };
    if !is_whole || bytes.len() as u64 <= most {
        return Ok(KeptPipe {
            bytes: KeptBytes::Memory(bytes),
            is_whole,
        });
    }
    match keep_in_file(rt, &bytes, pipe) {
        Ok(kept) => Ok(kept),
        Err(error) if matches!(error.kind(), io::ErrorKind::OutOfMemory) => Err(ToolError::Memory),
        Err(error) => {
            unread.note_unkept(&error);
            Err(ToolError::ReadFault)
        }
    }
}
