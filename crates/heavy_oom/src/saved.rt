//! The calls of `hh_saved`, which reads and writes summaries and tables.

use crate::lab::{Lab, Said, no_such_call, told};
use hh_saved::{Saved, SavedFault, read, write};
use std::alloc::{AllocError, Global};
use std::test::Fail;

/// Files of both versions that end where their entries or their rows would begin, of which they
/// promise the most.
const HEADS: [&[u8]; 4] = [
    b"HHS1\x01\xff\xff\0\0\0\0\0\0\0\0\xff\xff",
    b"HHS2\x01\xff\xff\0\0\0\0\0\0\0\0\xff\xff",
    b"HHS1\x02\0\x01\0\0\x10",
    b"HHS2\x02\0\x01\0\0\x10",
];

pub fn call(lab: &Lab, name: &str) -> Result<Said, Fail> {
    match name {
        "read of heads" => heads_read(lab),
        _ => called(lab, name, &Saved::Counters(lab.summary()?)),
    }
}

// Counts the heads that are refused as truncated.
fn heads_read(lab: &Lab) -> Result<Said, Fail> {
    lab.begin();
    let count = truncated(lab.alloc, &HEADS);
    lab.end();
    lab.answer(count)
}

fn truncated(alloc: Global, files: &[&[u8]]) -> usize {
    let mut count = 0usize;
    for file in files {
        if read(alloc, file).err() == Some(SavedFault::Truncated) {
            count = count.saturating_add(1);
        }
    }
    count
}

// Makes the call, with the summary of the items.
fn called(lab: &Lab, name: &str, saved: &Saved) -> Result<Said, Fail> {
    match name {
        "read" => summary_read(lab, write(lab.alloc, saved)?.as_slice()),
        "write" => told!(lab, write(lab.alloc, saved), AllocError),
        _ => Err(no_such_call(name)),
    }
}

fn summary_read(lab: &Lab, file: &[u8]) -> Result<Said, Fail> {
    told!(lab, read(lab.alloc, file), SavedFault::Memory)
}
