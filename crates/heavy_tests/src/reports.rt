//! Reports over readers and writers that fail in mid-stream.

use crate::devices::{FailingReader, FaultyWriter, Manner};
use crate::fixtures::assert_same;
use heavy::{Out, ReportOptions, Share, ToolError, Tree, run_report};
use std::io::Read;
use std::process::Abort;
use std::sync::Wait;
use std::thread::Threads;

const RECORDS: &[u8] = b"a,5\nb,3\nc,2\na,1\n";

/// The options that the program takes where none are given, and k = 2.
fn options() -> ReportOptions {
    ReportOptions {
        k: 2,
        threshold: Share::OfCounters,
        workers: 4,
        pieces: 4,
        tree: Tree::Balanced,
        width: 1024,
        depth: 4,
        seed: 0,
    }
}

/// What a writer takes of a report, and the refusal.
fn report_of<R: Read + Drop>(
    rt: &(impl Abort + AllocGlobal + Threads + Wait + Sync),
    reader: R,
    manner: Manner,
) -> (Vec<u8>, Option<ToolError>) {
    let mut taken = Vec::new(rt.alloc());
    let mut out = Out::new(FaultyWriter::new(manner, &mut taken));
    let fault = run_report(rt, rt.alloc(), &options(), reader, &mut out).err();
    drop(out);
    (taken, fault)
}

/// Reports the records, where the read with a number fails; and counts the reads.
fn report_from(
    rt: &(impl Abort + AllocGlobal + Threads + Wait + Sync),
    fails_at: u64,
) -> (Vec<u8>, Option<ToolError>, u64) {
    let mut reads = 0;
    let source = FailingReader::new(RECORDS, &mut reads, fails_at);
    let (taken, refusal) = report_of(rt, source, Manner::taking(99));
    (taken, refusal, reads)
}

/// A report where the read with a number fails is refused, with nothing written.
fn assert_refused(rt: &(impl Abort + AllocGlobal + Threads + Wait + Sync), fails_at: u64) {
    let (taken, refusal, _) = report_from(rt, fails_at);
    assert_same(rt, refusal, Some(ToolError::ReadFault));
    assert!(rt; taken.is_empty());
}

#[test]
fn each_read_of_a_report_fails(rt: HostRuntime) {
    let (rows, none, reads) = report_from(&rt, 0);
    assert_same(&rt, (rows.as_slice(), none), (b"a,6\n".as_slice(), None));
    assert!(rt; 4 < reads && reads < 99);
    for fails_at in 1..=reads {
        assert_refused(&rt, fails_at);
    }
}

#[test]
fn reports_to_writers(rt: HostRuntime) {
    for (manner, written) in &Manner::of_four_bytes() {
        let (taken, refusal) = report_of(&rt, RECORDS, *manner);
        let told = written.map(|written| ToolError::WriteFault { written });
        assert_same(&rt, refusal, told);
        let len = written.unwrap_or(4) as usize;
        assert_same(&rt, taken.len(), len);
        assert!(rt; b"a,6\n".starts_with(taken.as_slice()));
    }
}
