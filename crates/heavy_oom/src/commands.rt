//! The calls of `heavy` that no command of the program makes: reports by a reader and to a sink,
//! confirming by a stream in memory, and those that take no memory.

use crate::lab::{Lab, Said, marked, told};
use crate::records;
use crate::show::Hex;
use heavy::{
    Heavy, Method, Out, ReportOptions, Share, Sink, ToolError, Tree, confirm, put, report_text,
    run_report, write_report,
};
use hh_counters::Summary;
use hh_stream::Stream;
use std::alloc::AllocError;
use std::sync::Wait;
use std::test::Fail;
use std::thread::Threads;

/// How many bytes have room in a sink: a row of a long key.
const ROOM: usize = 48;

pub fn call<R: Threads + Wait + Sync>(rt: &R, lab: &Lab, name: &str) -> Result<Said, Fail> {
    match name {
        "confirm" => confirmed(lab, &lab.stream()?),
        "confirm many keys" => confirmed_many(lab),
        "put" => written(lab),
        "run_report" => reported(rt, lab, &mut [0u8; ROOM]),
        _ => of_rows(lab, name),
    }
}

// The row of a with 6.
fn rows(lab: &Lab) -> Result<[Heavy; 1], Fail> {
    let key = lab.key(b'a')?;
    Ok([Heavy { key, weight: 6 }])
}

// Makes the call on the row.
fn of_rows(lab: &Lab, name: &str) -> Result<Said, Fail> {
    match name {
        "report_text" => row_text(lab, &rows(lab)?),
        "write_report" => row_written(lab, &rows(lab)?, &mut [0u8; ROOM]),
        _ => records::call(lab, name),
    }
}

fn row_text(lab: &Lab, rows: &[Heavy]) -> Result<Said, Fail> {
    told!(lab, report_text(lab.alloc, rows), AllocError)
}

// Writes the row into the room, again where memory was refused.
fn row_written(lab: &Lab, rows: &[Heavy], room: &mut [u8]) -> Result<Said, Fail> {
    match row_written_once(lab, rows, room)? {
        Said::Answer => Ok(Said::Answer),
        Said::Memory => row_written_once(lab, rows, room),
    }
}

fn row_written_once(lab: &Lab, rows: &[Heavy], room: &mut [u8]) -> Result<Said, Fail> {
    lab.show(Hex(room))?;
    let mut out = Out::new(&mut *room);
    let made = marked!(lab, write_report(lab.alloc, &mut out, rows));
    drop(out);
    tell_written(lab, made, room)
}

// Prints what is in the room, or that memory was refused.
fn tell_written(lab: &Lab, made: Result<(), ToolError>, room: &[u8]) -> Result<Said, Fail> {
    match made {
        Ok(()) => lab.answer(Hex(room)),
        Err(ToolError::Memory) => lab.refused(),
        Err(fault) => Err(fault.into()),
    }
}

// The report of the four records, in four pieces, by two workers.
fn options() -> ReportOptions {
    ReportOptions {
        k: 2,
        threshold: Share::OfCounters,
        workers: 2,
        pieces: 4,
        tree: Tree::Balanced,
        width: 4,
        depth: 2,
        seed: 0,
    }
}

// Reports the records into the room, again where memory was refused.
fn reported<R: Threads + Wait + Sync>(rt: &R, lab: &Lab, room: &mut [u8]) -> Result<Said, Fail> {
    let text = lab.records()?;
    match reported_once(rt, lab, text.as_slice(), room)? {
        Said::Answer => Ok(Said::Answer),
        Said::Memory => reported_once(rt, lab, text.as_slice(), room),
    }
}

fn reported_once<R: Threads + Wait + Sync>(
    rt: &R,
    lab: &Lab,
    text: &[u8],
    room: &mut [u8],
) -> Result<Said, Fail> {
    lab.show(Hex(room))?;
    let options = options();
    let mut out = Out::new(&mut *room);
    let made = marked!(lab, run_report(rt, lab.alloc, &options, text, &mut out));
    drop(out);
    tell_written(lab, made, room)
}

// 20,000 different keys, none of which is heavy.
fn confirmed_many(lab: &Lab) -> Result<Said, Fail> {
    let start = lab.bytes(b'k')?;
    confirmed(lab, &lab.many_keys(start.as_slice(), 20_000)?)
}

// Confirms the summary of the stream by the stream.
fn confirmed(lab: &Lab, stream: &Stream) -> Result<Said, Fail> {
    let summary = Summary::of_items(lab.alloc, 2, stream.items())?;
    let made = marked!(lab, confirm(lab.alloc, &summary, stream));
    lab.tell(made, ToolError::Memory)
}

// Bytes put into a sink, and the other calls that take no memory.
fn written(lab: &Lab) -> Result<Said, Fail> {
    let mut room = [0u8; 16];
    lab.begin();
    let mut out = Out::new(room.as_mut_slice());
    let done = put(&mut out, b"five!").is_ok();
    let failed = out.failed();
    let status = ToolError::Memory.status();
    let method = Method::of(b"ss").is_ok();
    lab.end();
    lab.show(Hex(&room[..5]))?;
    lab.answer(format_args!("{done} {failed} {status} {method}"))
}
