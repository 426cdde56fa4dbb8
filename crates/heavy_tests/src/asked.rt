//! A saved summary that is asked by lists of keys.

use crate::fixtures::assert_same;
use heavy::{Method, ask_bytes, summary_bytes};
use std::process::Abort;

/// The rows of `keys` by the summary of `a,5`, `b,3`, `c,2` and `a,1` with two counters. These are
/// a 4 and b 1, and each key weighs at most 2 more than its counter.
fn rows_of(rt: &(impl Abort + AllocGlobal), keys: &[&[u8]]) -> Vec<u8> {
    let alloc = rt.alloc();
    let records = b"a,5\nb,3\nc,2\na,1\n".as_slice();
    let file = summary_bytes(alloc, 2, Method::MisraGries, records).expect(rt, "a summary");
    let mut words = Vec::new(alloc);
    for key in keys {
        let word = Vec::from_slice(alloc, key).expect(rt, "a word");
        words.push(word).expect(rt, "room");
    }
    ask_bytes(alloc, file.as_slice(), words.as_slice()).expect(rt, "rows")
}

#[test]
fn keys_are_asked(rt: HostRuntime) {
    let rows: [(&[&[u8]], &[u8]); 3] = [
        (&[], b""),
        (&[b"a"], b"a,4,6\n"),
        (&[b"c", b"b", b"a"], b"c,0,2\nb,1,3\na,4,6\n"),
    ];
    for (keys, expected) in &rows {
        assert_same(&rt, rows_of(&rt, keys).as_slice(), *expected);
    }
}
