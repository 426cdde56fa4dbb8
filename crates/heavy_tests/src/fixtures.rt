//! What the tests share. Where something can't be made, as for want of memory, the test fails.

use heavy::read_stream;
use hh_stream::Stream;
use std::fmt::Debug;
use std::process::Abort;

/// Asserts that both are the same. Each assertion makes the proof of its function longer, and a
/// call hardly does.
pub(crate) fn assert_same<T: Debug + PartialEq + Drop>(rt: &impl Abort, found: T, expected: T) {
    assert_eq!(rt; found, expected);
}

/// The stream of these records.
pub(crate) fn stream_of(rt: &(impl Abort + AllocGlobal), records: &[u8]) -> Stream {
    read_stream(rt.alloc(), records).expect(rt, "a stream")
}
