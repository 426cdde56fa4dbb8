//! Standard streams that are closed when the program begins.

use std::fs::{File, OpenOptions};
use std::io;
use std::os::fd::AsFd;

/// What holds the numbers of closed standard streams.
#[derive(Drop)]
pub struct HeldNumbers {
    input: Option<File>,
    output: Option<File>,
    error: Option<File>,
}

/// Whether a stream is open.
fn is_open(stream: &impl AsFd) -> bool {
    stream.as_fd().try_clone_to_owned().is_ok()
}

/// Holds the number of a stream that is closed, where those of the streams before it are taken: a
/// file that is opened takes the least one that is free.
fn held(rt: &HostRuntime, stream: &impl AsFd, options: &OpenOptions) -> io::Result<Option<File>> {
    if is_open(stream) {
        return Ok(None);
    }
    Ok(Some(options.open(rt, "/dev/null")?))
}

/// Holds the number of each standard stream that is closed. Else the first file that is opened
/// would take it, and be read or written as that stream. So it is called before any file is opened,
/// and what it gives is held to the end.
///
/// A closed stream stays one that fails: the null device, which has its number, is opened for
/// writing in place of the input, and for reading in place of the others. An error is that the
/// device can't be opened.
pub fn hold_closed(rt: &HostRuntime) -> io::Result<HeldNumbers> {
    let (mut reads, mut writes) = (OpenOptions::new(), OpenOptions::new());
    reads.read(true);
    writes.write(true);
    Ok(HeldNumbers {
        input: held(rt, &rt.stdin(), &writes)?,
        output: held(rt, &rt.stdout(), &reads)?,
        error: held(rt, &rt.stderr(), &reads)?,
    })
}
