//! What is put to sinks over writers that fail, bytes and the rows of a report.

use crate::devices::{FaultyWriter, Manner};
use crate::fixtures::assert_same;
use heavy::{Heavy, Out, Sink, ToolError, WriteFault, put, write_report};
use hh_stream::Key;
use std::process::Abort;

/// What a writer takes of five bytes, the fault, and whether the sink fails.
fn put_five(
    rt: &(impl Abort + AllocGlobal),
    manner: Manner,
) -> (Vec<u8>, Option<WriteFault>, bool) {
    let mut taken = Vec::new(rt.alloc());
    let mut out = Out::new(FaultyWriter::new(manner, &mut taken));
    let fault = put(&mut out, b"12345").err();
    let failed = out.failed();
    drop(out);
    (taken, fault, failed)
}

/// Compares what a writer takes of five bytes with the first `written`, and whether the sink fails.
fn puts(rt: &(impl Abort + AllocGlobal), manner: Manner, written: u64, fails: bool) {
    let (taken, fault, failed) = put_five(rt, manner);
    assert!(rt; b"12345".starts_with(taken.as_slice()));
    assert_same(rt, taken.len() as u64, written);
    assert_same(
        rt,
        (fault, failed),
        (fails.then_some(WriteFault { written }), fails),
    );
}

#[test]
fn put_stops_where_the_writer_fails(rt: HostRuntime) {
    for left in 0..5 {
        for manner in [Manner::taking(left), Manner::taking_no_more_than(left)] {
            puts(&rt, manner, left as u64, true);
            puts(&rt, manner.interrupted(), left as u64, true);
        }
    }
    puts(&rt, Manner::without_flush(), 5, true);
}

#[test]
fn put_to_writers_that_take_all(rt: HostRuntime) {
    for manner in &[Manner::taking(5), Manner::taking(99), Manner::slow()] {
        puts(&rt, *manner, 5, false);
        puts(&rt, manner.interrupted(), 5, false);
    }
}

/// The fault of putting no bytes.
fn put_none(rt: &impl AllocGlobal, manner: Manner) -> Option<WriteFault> {
    let mut taken = Vec::new(rt.alloc());
    let mut out = Out::new(FaultyWriter::new(manner, &mut taken));
    put(&mut out, b"").err()
}

#[test]
fn put_of_no_bytes_flushes(rt: HostRuntime) {
    assert_same(&rt, put_none(&rt, Manner::taking(0)), None);
    let fault = put_none(&rt, Manner::without_flush());
    assert_same(&rt, fault, Some(WriteFault { written: 0 }));
}

/// The row of a key of one letter.
fn row(rt: &(impl Abort + AllocGlobal), letter: u8, weight: u64) -> Heavy {
    let key = Key::new(rt.alloc(), &[letter]).expect(rt, "a key");
    Heavy { key, weight }
}

/// What a writer takes of these rows, and the fault.
fn report_to(
    rt: &(impl Abort + AllocGlobal),
    rows: &[Heavy],
    manner: Manner,
) -> (Vec<u8>, Option<ToolError>) {
    let mut taken = Vec::new(rt.alloc());
    let mut out = Out::new(FaultyWriter::new(manner, &mut taken));
    let fault = write_report(rt.alloc(), &mut out, rows).err();
    drop(out);
    (taken, fault)
}

#[test]
fn row_of_one_key_is_written(rt: HostRuntime) {
    let (taken, fault) = report_to(&rt, &[row(&rt, b'a', 6)], Manner::taking(99));
    assert_same(&rt, (taken.as_slice(), fault), (b"a,6\n".as_slice(), None));
}

#[test]
fn rows_of_a_report_are_written(rt: HostRuntime) {
    let rows = [row(&rt, b'a', 6), row(&rt, b'b', 3)];
    for (manner, written) in &[
        (Manner::taking(99), None),
        (Manner::slow(), None),
        (Manner::taking(5), Some(5)),
        (Manner::taking(0), Some(0)),
        (Manner::without_flush(), Some(8)),
    ] {
        let (taken, fault) = report_to(&rt, &rows, *manner);
        let expected = written.map(|written| ToolError::WriteFault { written });
        assert_same(&rt, fault, expected);
        let len = written.unwrap_or(8) as usize;
        assert_same(&rt, Some(taken.as_slice()), b"a,6\nb,3\n".get(..len));
    }
}
