//! Records in several texts, and in columns of one's own.

use crate::fixtures::assert_same;
use hh_pieces::{Records, read_records};
use hh_records::{BadRecordCause, Column, Layout, TextError};
use hh_stream::Stream;
use std::process::Abort;

/// Hosts in a column with a name, and bytes in the first one, between tabs.
fn log(rt: &(impl Abort + AllocGlobal)) -> Layout {
    let mut layout = Layout::plain(rt.alloc());
    layout.delimiter = b'\t';
    layout.has_header = true;
    layout.allow_zero = true;
    let name = Vec::from_slice(rt.alloc(), b"host").expect(rt, "a name");
    layout.key.push(Column::Name(name)).expect(rt, "room");
    layout.weight = Some(Column::Number(1));
    layout
}

/// The number of items and the total of two such texts.
fn sizes<'a>(
    rt: &(impl Abort + AllocGlobal),
    first: &'a [u8],
    second: &'a [u8],
) -> Result<(usize, u64), TextError> {
    let alloc = rt.alloc();
    let layout = log(rt);
    let others = vec![in alloc; second].expect(rt, "room");
    let records = Records {
        layout,
        first,
        others,
    };
    let stream = read_records(alloc, records, Stream::new(alloc))?;
    Ok((stream.len(), stream.total()))
}

#[test]
fn texts_have_headers_of_their_own(rt: HostRuntime) {
    let first = b"bytes\tpath\thost\n5\t/\ta\n-\t/\tb";
    let both = sizes(&rt, first, b"x\thost\n7\ta\n");
    assert_same(&rt, both, Ok((2, 12)));
}

#[test]
fn headers_are_read_before_records(rt: HostRuntime) {
    let lacking = sizes(&rt, b"bytes\thost\nx\ta\n", b"bytes\tpath\n");
    assert_same(&rt, lacking, Err(TextError::NoColumn));
}

#[test]
fn records_are_numbered_over_all_texts(rt: HostRuntime) {
    let bad = sizes(&rt, b"bytes\thost\n1\ta\n2\tb\n", b"host\tbytes\nx\ta\n");
    let cause = BadRecordCause::BadWeight;
    assert_same(&rt, bad, Err(TextError::BadRecord { number: 3, cause }));
}
