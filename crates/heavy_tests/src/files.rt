//! Reports of files that fail in mid-stream, or that aren't the same in two readings, and files
//! that workers count, also while these grow.

ghost use Rattle.std.specs.Prelude.{◌≡◌, None, false, ⊤};

use crate::fixtures::assert_same;
use heavy::{
    Comparison, Layout, Method, Output, ReadAt, ReportOptions, RowOptions, Share, SourceRecords,
    ToolError, Tree, condense_files, confirm_files, report_files, summarise_files, summary_bytes,
    table_files,
};
use std::io::{self, Error, ErrorKind, Read};
use std::process::Abort;
use std::sync::Wait;
use std::sync::atomic::{AtomicU64, Ordering};
use std::thread::Threads;

/// What a file does in the course of its reads.
#[derive(Clone, Copy, PartialEq, Eq)]
enum Course {
    /// It fails from the read with this number on; none is 0.
    Fails(u64),
    /// Each reading gives another weight. It begins with two reads of the start: the first one is
    /// for the columns.
    Changes,
}

/// A file of the record `a,5000` or `a,6000` and, after it, of many keys.
#[derive(Drop)]
struct ManyRecords<'a> {
    course: Course,
    calls: &'a AtomicU64,
    /// The text with `a,5000`.
    first: String,
    /// The text with `a,6000`.
    second: String,
}

impl ManyRecords<'_> {
    /// The number of this call, from 1 on.
    fn call(&self) -> u64 {
        self.calls.fetch_add(1, Ordering::SeqCst).saturating_add(1)
    }
}

impl ReadAt for ManyRecords<'_> {
    ghost bytes = { λ _. None };

    ghost still = { λ _. ⊤ };

    fn len(&self) -> io::Result<u64> {
        Ok(self.first.len() as u64)
    }

    fn read_at(&self, buf: &mut [u8], at: u64) -> io::Result<usize> {
        let mut text = self.first.as_bytes();
        match self.course {
            Course::Changes => {
                let reading = if at == 0 {
                    self.call()
                } else {
                    self.calls.load(Ordering::SeqCst)
                };
                if reading / 2 % 2 == 0 {
                    text = self.second.as_bytes();
                }
            }
            Course::Fails(from) => {
                if self.call() >= from && from > 0 {
                    return Err(Error::from(ErrorKind::BrokenPipe));
                }
            }
        }
        let at = at.min(text.len() as u64) as usize;
        let mut rest = &text[at..];
        rest.read(buf)
    }

    fn check(&self) -> io::Result<()> {
        Ok(())
    }
}

/// The options of a report by one worker, of two pieces.
fn options() -> ReportOptions {
    ReportOptions {
        k: 2,
        threshold: Share::OfCounters,
        workers: 1,
        pieces: 2,
        tree: Tree::Balanced,
        width: 16,
        depth: 1,
        seed: 0,
    }
}

/// Records of more keys than one pass keeps, each of weight 1, and then this record: too late for
/// its weight to be known after one reading.
fn with_many_keys(rt: &(impl Abort + AllocGlobal), record: &str) -> String {
    let mut text = String::new(rt.alloc());
    for number in 0..4100 {
        write!(text, "k{number}\n").expect(rt, "room");
    }
    write!(text, "{record}\n").expect(rt, "room");
    text
}

/// Makes the rows of a report of these records.
fn reported<F: ReadAt + Sync>(
    rt: &(impl Abort + AllocGlobal + Threads + Wait + Sync),
    records: SourceRecords<'_, F>,
) -> Result<Vec<u8>, ToolError> {
    let rows = RowOptions::all(Output::plain(0));
    report_files(rt, rt.alloc(), &options(), &rows, records)
}

/// Makes the rows of a report of such a file, which is read twice, or the refusal, and tells how
/// many calls there were.
fn report_of(
    rt: &(impl Abort + AllocGlobal + Threads + Wait + Sync),
    course: Course,
) -> (Result<Vec<u8>, ToolError>, u64) {
    let calls = AtomicU64::new(0);
    let sources = [ManyRecords {
        course,
        calls: &calls,
        first: with_many_keys(rt, "a,5000"),
        second: with_many_keys(rt, "a,6000"),
    }];
    let layout = Layout::plain(rt.alloc());
    let records = SourceRecords {
        layout: &layout,
        sources: &sources,
    };
    let outcome = reported(rt, records);
    (outcome, calls.load(Ordering::SeqCst))
}

/// Asserts that the report is refused.
fn assert_refused(rt: &(impl Abort + AllocGlobal + Threads + Wait + Sync), course: Course) {
    let (outcome, _) = report_of(rt, course);
    assert_same(rt, outcome.err(), Some(ToolError::ReadFault));
}

#[test]
fn each_read_of_a_file_fails(rt: HostRuntime) {
    let (outcome, reads) = report_of(&rt, Course::Fails(0));
    let rows = outcome.expect(&rt, "a report");
    assert_same(&rt, rows.as_slice(), b"a,5000\n".as_slice());
    assert!(rt; 2 <= reads && reads < 99);
    for from in 1..=reads {
        assert_refused(&rt, Course::Fails(from));
    }
}

#[test]
fn file_that_is_not_the_same_twice_is_refused(rt: HostRuntime) {
    assert_refused(&rt, Course::Changes);
}

/// Records of a file that workers read.
const TEXT: &[u8] = b"a,5\nb,1\na,2\n";

/// What is made of files.
#[derive(Clone, Copy)]
enum Verb {
    Report,
    /// By this many workers.
    Summarise(u64),
    Table,
    Condense,
    Confirm,
}

const VERBS: [Verb; 6] = [
    Verb::Report,
    Verb::Summarise(1),
    Verb::Summarise(2),
    Verb::Table,
    Verb::Condense,
    Verb::Confirm,
];

/// The summary of these records, with one counter.
fn summary_of(rt: &(impl Abort + AllocGlobal), bytes: &[u8]) -> Vec<u8> {
    summary_bytes(rt.alloc(), 1, Method::MisraGries, bytes).expect(rt, "a summary")
}

/// The summary of `bytes`, condensed over these records.
fn condensed<F: ReadAt + Sync>(
    rt: &(impl Abort + AllocGlobal + Threads + Wait + Sync),
    bytes: &[u8],
    records: SourceRecords<'_, F>,
) -> Result<Vec<u8>, ToolError> {
    let (file, mut compared) = (summary_of(rt, bytes), Comparison::new(true));
    let output = Output::plain(0);
    condense_files(rt, rt.alloc(), &file, 2, records, &output, &mut compared)
}

/// The summary of `bytes`, confirmed over these records.
fn confirmed<F: ReadAt + Sync>(
    rt: &(impl Abort + AllocGlobal + Threads + Wait + Sync),
    bytes: &[u8],
    records: SourceRecords<'_, F>,
) -> Result<Vec<u8>, ToolError> {
    let (file, mut compared) = (summary_of(rt, bytes), Comparison::new(true));
    let (share, rows) = (Share::OfCounters, RowOptions::all(Output::plain(0)));
    confirm_files(
        rt,
        rt.alloc(),
        &file,
        &share,
        &rows,
        2,
        records,
        &mut compared,
    )
}

/// What is made of these records or, with the summary of `bytes`, over them.
fn made_by<F: ReadAt + Sync>(
    rt: &(impl Abort + AllocGlobal + Threads + Wait + Sync),
    verb: Verb,
    bytes: &[u8],
    records: SourceRecords<'_, F>,
) -> Result<Vec<u8>, ToolError> {
    match verb {
        Verb::Report => reported(rt, records),
        Verb::Summarise(workers) => summarise_files(rt, rt.alloc(), 1, workers, records),
        Verb::Table => table_files(rt, rt.alloc(), 4, 2, 3, 2, records),
        Verb::Condense => condensed(rt, bytes, records),
        Verb::Confirm => confirmed(rt, bytes, records),
    }
}

/// What is made of a file of the records, alone.
fn made_of_text(rt: &(impl Abort + AllocGlobal + Threads + Wait + Sync), verb: Verb) -> Vec<u8> {
    let file = Vec::from_slice(rt.alloc(), TEXT).expect(rt, "a file");
    let (sources, layout) = ([file], Layout::plain(rt.alloc()));
    let records = SourceRecords {
        layout: &layout,
        sources: &sources,
    };
    made_by(rt, verb, TEXT, records).expect(rt, "bytes")
}

#[test]
fn files_are_condensed_by_workers(rt: HostRuntime) {
    let rows = made_of_text(&rt, Verb::Condense);
    assert_same(&rt, rows.as_slice(), b"a,7\nothers,1\n".as_slice());
}

#[test]
fn files_are_confirmed_by_workers(rt: HostRuntime) {
    let rows = made_of_text(&rt, Verb::Confirm);
    assert_same(&rt, rows.as_slice(), b"a,7\n".as_slice());
}

/// The table of the records, by hand: width and depth, the family that seed 3 draws, the total, and
/// two rows of cells.
const TABLE_OF_TEXT: &[u8] = b"HHS2\x02\0\0\0\x04\x02\
    \x0d\x32\x82\x33\x88\x78\xbf\x74\
    \x19\xf9\xa1\xb2\x8c\x2f\xab\x15\x1c\x95\xa2\x72\x88\x17\x2d\x3e\
    \x16\x0a\x40\x4c\xb8\x2a\x54\x85\x0b\xef\x0b\x28\xe2\x3e\x58\xb5\
    \0\0\0\0\0\0\0\x08\
    \0\0\0\0\0\0\0\x07\0\0\0\0\0\0\0\0\0\0\0\0\0\0\0\x01\0\0\0\0\0\0\0\0\
    \0\0\0\0\0\0\0\x01\0\0\0\0\0\0\0\0\0\0\0\0\0\0\0\x07\0\0\0\0\0\0\0\0";

#[test]
fn files_are_tabulated_by_workers(rt: HostRuntime) {
    let table = made_of_text(&rt, Verb::Table);
    assert_same(&rt, table.as_slice(), TABLE_OF_TEXT);
}

/// What a growing file has in the end. Its second record comes once its pieces were cut.
const GROWN: &[u8] = b"a,5\na,2\n";

/// A file that grows, and may be changed otherwise, too.
#[derive(Drop)]
struct LiveFile {
    is_changed: bool,
}

impl ReadAt for LiveFile {
    ghost bytes = { λ _. None };

    ghost still = { λ file. file.is_changed ≡ false };

    fn len(&self) -> io::Result<u64> {
        Ok(4)
    }

    fn read_at(&self, buf: &mut [u8], at: u64) -> io::Result<usize> {
        let mut rest = &GROWN[at.min(8) as usize..];
        rest.read(buf)
    }

    fn check(&self) -> io::Result<()> {
        if self.is_changed {
            return Err(Error::from(ErrorKind::InvalidData));
        }
        Ok(())
    }
}

/// What is made of such a file.
fn made_of(
    rt: &(impl Abort + AllocGlobal + Threads + Wait + Sync),
    verb: Verb,
    is_changed: bool,
) -> Result<Vec<u8>, ToolError> {
    let (sources, layout) = ([LiveFile { is_changed }], Layout::plain(rt.alloc()));
    let records = SourceRecords {
        layout: &layout,
        sources: &sources,
    };
    made_by(rt, verb, GROWN, records)
}

/// The summary and the table of what the growing file has in the end, by hand.
const SUMMARY_OF_GROWN: &[u8] = b"HHS2\x01\0\x01\0\0\0\0\0\0\0\x07\0\x01\0\x01a\0\0\0\0\0\0\0\x07";

const TABLE_OF_GROWN: &[u8] = b"HHS2\x02\0\0\0\x04\x02\
    \x0d\x32\x82\x33\x88\x78\xbf\x74\
    \x19\xf9\xa1\xb2\x8c\x2f\xab\x15\x1c\x95\xa2\x72\x88\x17\x2d\x3e\
    \x16\x0a\x40\x4c\xb8\x2a\x54\x85\x0b\xef\x0b\x28\xe2\x3e\x58\xb5\
    \0\0\0\0\0\0\0\x07\
    \0\0\0\0\0\0\0\x07\0\0\0\0\0\0\0\0\0\0\0\0\0\0\0\0\0\0\0\0\0\0\0\0\
    \0\0\0\0\0\0\0\0\0\0\0\0\0\0\0\0\0\0\0\0\0\0\0\x07\0\0\0\0\0\0\0\0";

/// What is made of the bytes that the growing file has in the end.
fn made_of_grown(verb: Verb) -> &'static [u8] {
    match verb {
        Verb::Report | Verb::Condense | Verb::Confirm => b"a,7\n",
        Verb::Summarise(_) => SUMMARY_OF_GROWN,
        Verb::Table => TABLE_OF_GROWN,
    }
}

#[test]
fn growing_files_are_read_on(rt: HostRuntime) {
    for verb in &VERBS {
        let made = made_of(&rt, *verb, false).expect(&rt, "bytes");
        assert_same(&rt, made.as_slice(), made_of_grown(*verb));
    }
}

#[test]
fn changed_files_are_refused(rt: HostRuntime) {
    for verb in &VERBS {
        let fault = made_of(&rt, *verb, true).err();
        assert_same(&rt, fault, Some(ToolError::ReadFault));
    }
}
