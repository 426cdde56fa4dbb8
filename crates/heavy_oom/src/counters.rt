//! The calls of `hh_counters` on summaries.

ghost use Rattle.std.specs.Prelude.{◌≡◌, length};

use crate::lab::{Lab, Said, marked, told};
use crate::monitors;
use crate::show::{Counters, Numbers};
use hh_counters::{Candidates, Summary, SummaryFault};
use hh_stream::{Key, Stream};
use std::alloc::AllocError;
use std::test::Fail;

const ENTRIES: [(u8, u64); 2] = [(b'a', 4), (b'b', 1)];

pub fn call(lab: &Lab, name: &str) -> Result<Said, Fail> {
    match name {
        "Summary::add" => summary_add(lab, 2),
        "Summary::add with room left" => summary_add(lab, 4),
        "Summary::of_items" => summary_of_items(lab),
        "Summary::merge" => summary_merge(lab),
        "Summary::new" => summary_new(lab),
        "Summary readers" => summary_readers(lab),
        "Summary::from_entries" => from_entries(lab, entries(lab)?),
        _ => candidates_call(lab, name),
    }
}

// The calls on candidates.
fn candidates_call(lab: &Lab, name: &str) -> Result<Said, Fail> {
    match name {
        "Candidates::of" => candidates_of(lab, &lab.summary()?),
        "Candidates::select" => selected(lab),
        "Candidates readers" => candidates_readers(lab),
        _ => monitors::call(lab, name),
    }
}

fn candidates_of(lab: &Lab, summary: &Summary) -> Result<Said, Fail> {
    told!(lab, Candidates::of(lab.alloc, summary), AllocError)
}

// The rows of the keys above a third of the total.
fn selected(lab: &Lab) -> Result<Said, Fail> {
    let candidates = lab.candidates()?;
    told!(lab, candidates.select(&[6, 3], 11, 1, 3), AllocError)
}

// The items for this k and then a newcomer, by which the counters fall where k have one, and again
// where memory was refused.
fn summary_add(lab: &Lab, k: u64) -> Result<Said, Fail> {
    let key = lab.key(b'd')?;
    let mut summary = Summary::of_items(lab.alloc, k, lab.stream()?.items())?;
    add_twice(lab, &mut summary, &key)
}

fn add_twice(lab: &Lab, summary: &mut Summary, key: &Key) -> Result<Said, Fail> {
    match added(lab, summary, key)? {
        Said::Answer => Ok(Said::Answer),
        Said::Memory => added(lab, summary, key),
    }
}

fn added(lab: &Lab, summary: &mut Summary, key: &Key) -> Result<Said, Fail> {
    lab.show(Counters(summary))?;
    let made = marked!(lab, summary.add(key, 4).and(Ok(&*summary)));
    lab.tell(made, SummaryFault::Memory)
}

fn summary_of_items(lab: &Lab) -> Result<Said, Fail> {
    let stream = lab.stream()?;
    let made = marked!(lab, Summary::of_items(lab.alloc, 2, stream.items()));
    lab.tell(made, SummaryFault::Memory)
}

// The summary of c 7.
fn other_summary(lab: &Lab) -> Result<Summary, Fail> {
    let mut stream = Stream::new(lab.alloc);
    lab.push(&mut stream, b'c', 7)?;
    Ok(Summary::of_items(lab.alloc, 2, stream.items())?)
}

// Two summaries, and again where memory was refused.
fn summary_merge(lab: &Lab) -> Result<Said, Fail> {
    let other = other_summary(lab)?;
    merge_twice(lab, &mut lab.summary()?, &other)
}

fn merge_twice(lab: &Lab, summary: &mut Summary, other: &Summary) -> Result<Said, Fail> {
    match merged(lab, summary, other)? {
        Said::Answer => Ok(Said::Answer),
        Said::Memory => merged(lab, summary, other),
    }
}

fn merged(lab: &Lab, summary: &mut Summary, other: &Summary) -> Result<Said, Fail> {
    lab.show(Counters(summary))?;
    lab.show(Counters(other))?;
    let made = marked!(lab, summary.merge(other).and(Ok(&*summary)));
    lab.tell(made, SummaryFault::Memory)
}

// The summary that is made without memory.
fn summary_new(lab: &Lab) -> Result<Said, Fail> {
    let made = marked!(lab, Summary::new(lab.alloc, 2));
    lab.answer(Counters(&made?))
}

fn summary_readers(lab: &Lab) -> Result<Said, Fail> {
    let summary = lab.summary()?;
    read(lab, &summary, &lab.key(b'a')?)
}

// The calls on a summary that take no memory.
fn read(lab: &Lab, summary: &Summary, a: &Key) -> Result<Said, Fail> {
    lab.begin();
    let fits = Summary::fits(2, 0, &[]);
    let numbers = [
        summary.k(),
        summary.total(),
        summary.sum(),
        summary.len() as u64,
        summary.slack(),
        summary.get(a),
    ];
    lab.end();
    let numbers = Numbers(&numbers);
    lab.answer(format_args!("{fits} {numbers}"))
}

// The keys a and b with these counters.
fn entries(lab: &Lab) -> Result<Vec<(Key, u64)>, Fail> {
    let mut entries = Vec::new(lab.alloc);
    for (letter, counter) in &ENTRIES {
        entries.push((lab.key(*letter)?, *counter))?;
    }
    Ok(entries)
}

// The summary of counters a 4 and b 1 that are there, and its entries, without memory.
fn from_entries(lab: &Lab, entries: Vec<(Key, u64)>) -> Result<Said, Fail> {
    if !Summary::fits(2, 11, entries.as_slice()) {
        return Err(Fail::new("a 4 and b 1 are counters of a total of 11"));
    }
    lab.begin();
    let summary = Summary::from_entries(2, 11, entries);
    let counter = first_counter(&summary);
    lab.end();
    lab.show(Counters(&summary))?;
    lab.answer(counter)
}

fn first_counter(summary: &Summary) -> u64 {
    match summary.len() {
        0 => 0,
        _ => summary.entry(0).1,
    }
}

fn candidates_readers(lab: &Lab) -> Result<Said, Fail> {
    let stream = lab.stream()?;
    count_in(lab, &stream, &lab.key(b'b')?)
}

fn count_in(lab: &Lab, stream: &Stream, b: &Key) -> Result<Said, Fail> {
    let candidates = lab.candidates()?;
    count(lab, &candidates, stream, b)
}

// The calls on two candidates that take no memory.
fn count(lab: &Lab, candidates: &Candidates, stream: &Stream, b: &Key) -> Result<Said, Fail>
    requires { length candidates.now ≡ 2 }
{
    let mut numbers = [0u64; 2];
    lab.begin();
    let len = candidates.len();
    let is_second = candidates.place(b) == Some(1);
    candidates.count_piece(stream.items(), &mut numbers);
    let is_same = candidates.key(1) == b;
    lab.end();
    let numbers = Numbers(&numbers);
    lab.answer(format_args!("{len} {is_second} {is_same} {numbers}"))
}
