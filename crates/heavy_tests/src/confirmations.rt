//! Summaries confirmed by a second pass.

use crate::fixtures::{assert_same, stream_of};
use heavy::{Heavy, ToolError, confirm};
use hh_counters::Summary;
use hh_stream::Stream;
use std::process::Abort;

/// The summary of the stream for k = 2.
fn summary_of(rt: &(impl Abort + AllocGlobal), stream: &Stream) -> Summary {
    Summary::of_items(rt.alloc(), 2, stream.items()).expect(rt, "a summary")
}

/// The rows as text, as "a 6 ".
fn shown(rt: &(impl Abort + AllocGlobal), rows: &[Heavy]) -> String {
    let mut text = String::new(rt.alloc());
    for row in rows {
        let key = str::from_utf8(row.key.bytes()).expect(rt, "a text");
        write!(text, "{key} {} ", row.weight).expect(rt, "room");
    }
    text
}

/// The rows of a summary that is confirmed by a stream.
fn confirmed(rt: &(impl Abort + AllocGlobal), summary: &Summary, stream: &Stream) -> String {
    let rows = confirm(rt.alloc(), summary, stream).expect(rt, "rows");
    shown(rt, &rows)
}

#[test]
fn a_summary_confirmed_by_its_stream(rt: HostRuntime) {
    let stream = stream_of(&rt, b"a,5\nb,3\nc,2\na,1\n");
    let summary = summary_of(&rt, &stream);
    let rows = confirmed(&rt, &summary, &stream);
    assert_same(&rt, rows.as_str(), "a 6 ");
    let other = stream_of(&rt, b"a,5\n");
    let refused = confirm(rt.alloc(), &summary, &other).err();
    assert_same(&rt, refused, Some(ToolError::TotalDiffers));
}

// The items a 1, c 1 and b 3 leave b 2 of a total of 5.
#[test]
fn a_summary_without_the_heavy_key(rt: HostRuntime) {
    let summary = summary_of(&rt, &stream_of(&rt, b"a,1\nc,1\nb,3\n"));
    let numbers = (summary.len(), summary.sum(), summary.total());
    assert_same(&rt, numbers, (1, 2, 5));
    let rows = confirmed(&rt, &summary, &stream_of(&rt, b"a,5\n"));
    assert_same(&rt, rows.as_str(), "");
}
