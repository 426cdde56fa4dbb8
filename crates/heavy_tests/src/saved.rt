//! Saved files that are refused, each with its fault.

use crate::fixtures::assert_same;
use hh_saved::{SavedFault, read};

/// Files, and the fault at their last field.
const REFUSED: [(&[u8], SavedFault); 17] = [
    (b"HHS", SavedFault::Truncated),
    (
        b"HHS1\x01\xff\xff\0\0\0\0\0\0\0\0\xff\xff",
        SavedFault::Truncated,
    ),
    (b"HHS2\x02\0\x01\0\0\x10", SavedFault::Truncated),
    (b"HHS3", SavedFault::BadMagic),
    (b"HHS2\x03", SavedFault::BadKind),
    (b"HHS2\x01\0\0", SavedFault::BadK),
    (
        b"HHS2\x01\0\x02\x80\0\0\0\0\0\0\0",
        SavedFault::TotalTooLarge,
    ),
    (
        b"HHS2\x01\0\x02\0\0\0\0\0\0\0\x0b\0\x03",
        SavedFault::BadCount,
    ),
    (
        b"HHS2\x01\0\x02\0\0\0\0\0\0\0\x0b\0\x02\x10\x01",
        SavedFault::BadKey,
    ),
    (
        b"HHS2\x01\0\x02\0\0\0\0\0\0\0\x0b\0\x02\0\x01a\0\0\0\0\0\0\0\x04\0\x01a",
        SavedFault::KeyOrder,
    ),
    (
        b"HHS2\x01\0\x02\0\0\0\0\0\0\0\x0b\0\x02\0\x01a\0\0\0\0\0\0\0\0",
        SavedFault::BadCounter,
    ),
    (
        b"HHS2\x01\0\x02\0\0\0\0\0\0\0\x0b\0\x02\0\x01a\0\0\0\0\0\0\0\x0c",
        SavedFault::SumTooLarge,
    ),
    (b"HHS2\x02\0\x01\0\x01", SavedFault::BadWidth),
    (b"HHS2\x02\0\0\0\x01\x11", SavedFault::BadDepth),
    (
        b"HHS2\x02\0\0\0\x01\x01\0\0\0\0\0\0\x01\0\0\0\0\0\0\0\0\0\0\0\0\0\0\0\0\0",
        SavedFault::BadCoefficient,
    ),
    (
        b"HHS2\x02\0\0\0\x01\x01\0\0\0\0\0\0\x01\0\0\0\0\0\0\0\0\x01\0\0\0\0\0\0\0\0\
        \0\0\0\0\0\0\0\x02\0\0\0\0\0\0\0\x01",
        SavedFault::RowSum,
    ),
    (
        b"HHS2\x01\0\x02\0\0\0\0\0\0\0\0\0\0\0",
        SavedFault::Trailing,
    ),
];

#[test]
fn files_are_refused_at_their_last_field(rt: HostRuntime) {
    for (file, fault) in &REFUSED {
        assert_same(&rt, read(rt.alloc(), file).err(), Some(*fault));
    }
}
