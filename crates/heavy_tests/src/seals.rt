//! Sealed files of which a byte is another, left out or added.

use crate::fixtures::assert_same;
use hh_seals::{Contents, MAX_DECIMALS, SavedFault, open, seal};
use std::process::Abort;

/// The summary of k = 2 with total 11 and the counters a 4, b 1, and an empty one.
const SPELLINGS: [&[u8]; 2] = [
    b"HHS2\x01\0\x02\0\0\0\0\0\0\0\x0b\0\x02\0\x01a\0\0\0\0\0\0\0\x04\0\x01b\0\0\0\0\0\0\0\x01",
    b"HHS2\x01\0\x02\0\0\0\0\0\0\0\0\0\0",
];

/// The first of them with 2 decimals, sealed. Python's hashlib gave the digest.
const SEALED: &[u8] = b"HVY1\x02HHS2\x01\0\x02\0\0\0\0\0\0\0\x0b\0\x02\0\x01a\0\0\0\0\0\0\0\x04\
    \0\x01b\0\0\0\0\0\0\0\x01\x5d\x13\x7c\xde\xb7\xea\x67\x08\x79\x63\xf2\x8b\xfb\x4c\x76\xd4\x73\
    \xda\xa3\xb9\xa9\xfe\xce\xc3\x11\x9f\x83\x2c\x90\x08\x2b\x83";

/// Texts that are opened as none, each with its fault.
const REFUSED: [(&[u8], SavedFault); 4] = [
    (b"HVY", SavedFault::Truncated),
    (b"HHS2", SavedFault::BadMagic),
    (b"HVY1\x02HHS2", SavedFault::Truncated),
    (
        b"HVY1\x02HHS2\0\0\0\0\0\0\0\0\0\0\0\0\0\0\0\0\0\0\0\0\0\0\0\0\0\0\0\0\0\0\0\0",
        SavedFault::Damaged,
    ),
];

/// Counts the other bytes in this place with which `file` is opened.
fn opened_with_another(file: &mut Vec<u8>, place: usize) -> usize {
    let Some(byte) = file.get(place).copied() else {
        return 0;
    };
    let mut count = 0usize;
    for change in 1..=u8::MAX {
        file[place] = byte ^ change;
        count = count.saturating_add(usize::from(open(file).is_ok()));
    }
    file[place] = byte;
    count
}

/// Asserts that `file` is not opened with another byte in any place, nor a part from its start.
fn try_changes(rt: &impl Abort, file: &mut Vec<u8>) {
    for place in 0..file.len() {
        assert_same(rt, opened_with_another(file, place), 0);
        let part = file.get(..place).expect(rt, "a part of the file");
        assert_same(rt, open(part).is_ok(), false);
    }
}

/// Asserts that `file` is not opened with any byte after it.
fn try_more(rt: &impl Abort, file: &mut Vec<u8>) {
    for byte in 0..=u8::MAX {
        file.push(byte).expect(rt, "room");
        assert_same(rt, open(file).is_ok(), false);
        file.truncate(file.len().saturating_sub(1));
    }
}

/// Seals both spellings with these decimals, opens them, and tries all changes.
fn try_decimals(rt: &(impl Abort + AllocGlobal), decimals: u8) {
    for spelling in SPELLINGS {
        let mut file = seal(rt.alloc(), decimals, spelling).expect(rt, "a sealed file");
        assert_same(rt, open(&file), Ok(Contents { decimals, spelling }));
        try_changes(rt, &mut file);
        try_more(rt, &mut file);
    }
}

#[test]
fn changed_files_are_refused(rt: HostRuntime) {
    for decimals in 0..=MAX_DECIMALS {
        try_decimals(&rt, decimals);
    }
}

#[test]
fn a_seal_is_as_hashlib_has_it(rt: HostRuntime) {
    let file = seal(rt.alloc(), 2, SPELLINGS[0]).expect(&rt, "a sealed file");
    assert_same(&rt, file.as_slice(), SEALED);
    assert_same(
        &rt,
        seal(rt.alloc(), 10, b"").err(),
        Some(SavedFault::BadDecimals),
    );
}

#[test]
fn other_texts_are_refused(rt: HostRuntime) {
    for (text, fault) in &REFUSED {
        assert_same(&rt, open(text).err(), Some(*fault));
    }
}
