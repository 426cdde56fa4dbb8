//! Why an input can't be read, or kept, and why a file can't be written.

use crate::escaped::{Name, print_about};
use crate::first_bytes::disk_file;
use heavy_host::Unread;
use heavy_inputs::temporary_folder;
use std::os::unix::fs::FileExt;

/// Gives the system's reason in the `text` of an error, which ends by the error's number.
fn reason_in(text: &str) -> &str {
    match text.split_once(" (os error") {
        Some((reason, _)) => reason,
        None => text,
    }
}

/// Prints why the file `name` couldn't be read, or written, by the `error` that was noted, and
/// `otherwise` where none was.
fn tell_error(rt: &HostRuntime, name: Name<'_>, unread: &Unread, otherwise: Option<&str>) {
    let Some(error) = unread.error() else {
        if let Some(reason) = otherwise {
            print_about(rt, name, ": ", reason);
        }
        return;
    };
    if let Ok(text) = format!(in rt.alloc(); "{error}") {
        print_about(rt, name, ": ", reason_in(&text));
    }
}

/// Whether the file `name` of the disk has fewer bytes than its length says, as those of /sys do.
fn is_shorter(rt: &HostRuntime, name: &[u8]) -> bool {
    let Some(file) = disk_file(rt, name) else {
        return false;
    };
    let Ok(metadata) = file.metadata() else {
        return false;
    };
    let mut byte = [0u8];
    match metadata.len().checked_sub(1) {
        Some(last) => matches!(FileExt::read_at(&file, &mut byte, last), Ok(0)),
        None => false,
    }
}

/// Says why the file `name` couldn't be read to its end, where the system gave no reason.
fn reason_of(rt: &HostRuntime, name: &[u8]) -> &'static str {
    if is_shorter(rt, name) {
        "it has fewer bytes than its length says; `cat` reads it into a pipe"
    } else {
        "it changed while it was read"
    }
}

/// Prints that the name of a file isn't UTF-8, where that is so: then it can't be opened.
fn tells_name(rt: &HostRuntime, name: Name<'_>) -> bool {
    let is_none = str::from_utf8(name.0).is_err();
    if is_none {
        print_about(rt, name, ": ", "its name isn't UTF-8");
    }
    is_none
}

/// Prints why the file `name` couldn't be written, where that is known.
pub(crate) fn tell_unwritten(rt: &HostRuntime, name: Name<'_>, unread: &Unread) {
    if !tells_name(rt, name) {
        tell_error(rt, name, unread, None);
    }
}

/// Prints why the file `name` couldn't be read when it was tried.
pub(crate) fn tell_unread(rt: &HostRuntime, name: Name<'_>, unread: &Unread) {
    if tells_name(rt, name) {
        return;
    }
    if unread.error().is_some() {
        tell_error(rt, name, unread, None);
    } else {
        print_about(rt, name, ": ", reason_of(rt, name.0));
    }
}

/// Prints why standard input couldn't be read, where the system gave a reason.
pub(crate) fn tell_standard(rt: &HostRuntime, unread: &Unread) {
    tell_error(rt, Name(b"standard input"), unread, None);
}

/// Prints why a pipe's bytes could not be kept.
pub(crate) fn tell_unkept(rt: &HostRuntime, unread: &Unread) {
    let Ok(folder) = temporary_folder(rt) else {
        return;
    };
    if let Ok(name) = format!(in rt.alloc(); "the temporary folder {folder}") {
        let reason = "a pipe could not be kept there";
        tell_error(rt, Name(name.as_bytes()), unread, Some(reason));
    }
}
