//! The saved files of the machine.

ghost use Rattle.std.specs.Prelude.{⊤};

use crate::inputs::Inputs;
use heavy_host::{FileSource, is_standard};
use std::alloc::{AllocError, Global};
use std::fs::File;
use std::io::{self, Read};

/// The bytes by which a file is seen to be none that was saved.
const MAGIC_LEN: u64 = 4;

/// Reads a saved `file`. Of one that begins as none it gives the first bytes, by which it is
/// refused as by all.
fn saved_bytes<R: Read + Drop>(alloc: Global, mut file: R) -> io::Result<Vec<u8>> {
    let mut bytes = Vec::new(alloc);
    (&mut file).take(MAGIC_LEN).read_to_end(&mut bytes)?;
    let is_sealed = bytes.starts_with(b"HVY1");
    if is_sealed || bytes.starts_with(b"HHS1") || bytes.starts_with(b"HHS2") {
        file.read_to_end(&mut bytes)?;
    }
    Ok(bytes)
}

/// Reads the saved file at `path`.
fn file_bytes(rt: &HostRuntime, path: &str) -> io::Result<Vec<u8>> {
    saved_bytes(rt.alloc(), File::open(rt, path)?)
}

/// Reads standard input, and notes how it begins: it can't be read again. Where a file before took
/// it, it is empty.
fn standard_bytes(inputs: Inputs<'_>) -> io::Result<Vec<u8>> {
    let bytes = saved_bytes(inputs.rt.alloc(), inputs.rt.stdin())?;
    inputs.notes.begin.add(0, &bytes);
    Ok(bytes)
}

/// The files of the machine, and standard input, whose name is `-`. The standard library opens files
/// by texts alone, so one whose name is not UTF-8 can't be read. No contract says what a file has.
impl<'a> FileSource for Inputs<'a> {
    ghost gives = { λ _ _ _. ⊤ };

    fn bytes(&self, name: &[u8]) -> Result<Option<Vec<u8>>, AllocError> {
        let Ok(path) = str::from_utf8(name) else {
            return Ok(None);
        };
        let read = if is_standard(name) {
            standard_bytes(*self)
        } else {
            file_bytes(self.rt, path)
        };
        match read {
            Ok(bytes) => Ok(Some(bytes)),
            Err(error) if matches!(error.kind(), io::ErrorKind::OutOfMemory) => Err(AllocError),
            Err(error) => {
                self.notes.unread.note(0, &error);
                Ok(None)
            }
        }
    }

    fn alloc(&self) -> Global {
        self.rt.alloc()
    }
}
