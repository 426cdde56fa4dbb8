//! What a file looks like by its first bytes.

use std::fs::{self, File};
use std::io::Read;

/// The most bytes of a file that show what it looks like.
pub(crate) const BEGIN: u64 = 65_536;

/// A format by the bytes that a file of it begins with, and what is said of such a file.
type Begins = (&'static [u8], &'static str);

/// The formats that no command reads.
const OTHERS: [Begins; 7] = [
    (b"\x1f\x8b", "looks like gzip: `gzip -dc` unpacks it"),
    (
        b"\x28\xb5\x2f\xfd",
        "looks like zstd: `zstd -dc` unpacks it",
    ),
    (b"\xfd7zXZ", "looks like xz: `xz -dc` unpacks it"),
    (b"BZh", "looks like bzip2: `bzip2 -dc` unpacks it"),
    (b"PK\x03\x04", "looks like a zip archive"),
    (
        b"\xff\xfe",
        "looks like UTF-16: `iconv -f UTF-16 -t UTF-8` makes it UTF-8",
    ),
    (
        b"\xfe\xff",
        "looks like UTF-16: `iconv -f UTF-16 -t UTF-8` makes it UTF-8",
    ),
];

/// Saved files: of the versions that are known here, and of any.
const SAVED: [Begins; 5] = [
    (b"HHS1", "begins as a saved file, and is damaged or cut off"),
    (b"HHS2", "begins as a saved file, and is damaged or cut off"),
    (
        b"HVY1",
        "begins as a sealed file, and is damaged or cut off",
    ),
    (b"HHS", "is a saved file of a version that isn't known here"),
    (
        b"HVY",
        "is a sealed file of a version that isn't known here",
    ),
];

/// Gives what is said of the first of `formats` that `bytes` begin as.
fn said_of(formats: &[Begins], bytes: &[u8]) -> Option<&'static str> {
    for (begin, said) in formats {
        if bytes.starts_with(begin) {
            return Some(*said);
        }
    }
    None
}

/// Whether `bytes` are those of a text.
fn are_text(bytes: &[u8]) -> bool {
    bytes.iter().all(|byte| *byte >= b' ' || matches!(*byte, b'\t' | b'\n' | b'\r'))
}

/// Names the format that the bytes of a file begin as, where it is one that no command reads.
pub(crate) fn other_format(bytes: &[u8]) -> Option<&'static str> {
    said_of(&OTHERS, bytes)
}

/// Says what the `bytes` of a file that is refused look like.
pub(crate) fn looks(bytes: &[u8]) -> &'static str {
    match said_of(&OTHERS, bytes).or(said_of(&SAVED, bytes)) {
        Some(said) => said,
        None if bytes.is_empty() => "is empty",
        None if are_text(bytes) => "looks like text: `heavy summarise` saves records of such",
        None => "looks like no saved file",
    }
}

/// Opens the file `name`, where it is one of the disk. No other file is opened again: a pipe would
/// have other bytes now, or none for ever.
pub(crate) fn disk_file(rt: &HostRuntime, name: &[u8]) -> Option<File> {
    let path = str::from_utf8(name).ok()?;
    if fs::metadata(rt, path).ok()?.is_file() {
        File::open(rt, path).ok()
    } else {
        None
    }
}

/// Reads the first bytes of `file`.
pub(crate) fn bytes_of(rt: &HostRuntime, file: File) -> Option<Vec<u8>> {
    let mut bytes = Vec::new(rt.alloc());
    match file.take(BEGIN).read_to_end(&mut bytes) {
        Ok(_) => Some(bytes),
        Err(_) => None,
    }
}

/// Reads the first bytes of the file `name`, where it is one of the disk.
pub(crate) fn begin_of(rt: &HostRuntime, name: &[u8]) -> Option<Vec<u8>> {
    bytes_of(rt, disk_file(rt, name)?)
}
