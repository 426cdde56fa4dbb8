//! The plans, merges and analyses of `hh_pool`.

ghost use Rattle.std.specs.Prelude.{◌≡◌, ◌*◌, IfOk, length, sum};

use crate::lab::{Lab, Said, marked, no_such_call, told};
use crate::show::{Counters, Report};
use heavy::ToolError;
use hh_counters::{Candidates, Summary, SummaryFault};
use hh_countmin::Family;
use hh_pool::{
    Gate, OpenGate, Options, Outcome, Plan, RunError, analyse, first_pass, first_pass_sequentially,
    merge_by, second_pass, second_pass_sequentially,
};
use hh_shared::SharedSums;
use hh_stream::{Cutting, Stream};
use std::alloc::AllocError;
use std::sync::Wait;
use std::sync::atomic::AtomicU64;
use std::sync::atomic::Ordering::SeqCst;
use std::test::Fail;
use std::thread::Threads;

pub fn call<R: Threads + Wait + Sync>(rt: &R, lab: &Lab, name: &str) -> Result<Said, Fail> {
    match name {
        "analyse" => analysed(rt, lab, &lab.stream()?),
        "analyse many keys" => analysed_many(rt, lab),
        "Plan, Options and OpenGate" => plain_calls(lab),
        _ => planned(lab, name),
    }
}

// Makes the call on plans of four pieces, or a merge by one of two.
fn planned(lab: &Lab, name: &str) -> Result<Said, Fail> {
    match name {
        "Plan::chain" => chained(lab),
        "Plan::balanced" => balanced(lab),
        "Plan::parse" => parsed(lab, b"((0 1) (2 3))"),
        "merge_by" => merged(lab, &Plan::chain(lab.alloc, 2)?),
        _ => passed(lab, name),
    }
}

fn chained(lab: &Lab) -> Result<Said, Fail> {
    told!(lab, Plan::chain(lab.alloc, 4), AllocError)
}

fn balanced(lab: &Lab) -> Result<Said, Fail> {
    told!(lab, Plan::balanced(lab.alloc, 4), AllocError)
}

fn parsed(lab: &Lab, text: &[u8]) -> Result<Said, Fail> {
    told!(lab, Plan::parse(lab.alloc, text, 4), ToolError::Memory)
}

// The summary of the items merged with itself.
fn merged(lab: &Lab, plan: &Plan) -> Result<Said, Fail> {
    let summaries = vec![in lab.alloc; lab.summary()?, lab.summary()?]?;
    merge_all(lab, plan, summaries)
}

fn merge_all(lab: &Lab, plan: &Plan, summaries: Vec<Summary>) -> Result<Said, Fail> {
    if plan.count() != summaries.len() {
        return Err(Fail::new("a piece has a summary"));
    }
    told!(
        lab,
        merge_by(lab.alloc, plan, summaries),
        SummaryFault::Memory
    )
}

// Makes the call of one pass over the four items, in two pieces.
fn passed(lab: &Lab, name: &str) -> Result<Said, Fail> {
    let stream = lab.stream()?;
    let cutting = Cutting::even(lab.alloc, stream.len(), 2)?;
    match name {
        "first_pass" => first_passed(lab, &stream, &cutting),
        "first_pass_sequentially" => first_passed_sequentially(lab, &stream, &cutting),
        _ => second(lab, name, &stream, &cutting),
    }
}

// Makes the call of the second pass.
fn second(lab: &Lab, name: &str, stream: &Stream, cutting: &Cutting) -> Result<Said, Fail>
    requires { sum cutting.now ≡ length stream.now }
{
    let candidates = lab.candidates()?;
    match name {
        "second_pass" => second_passed(lab, stream, cutting, &candidates),
        "second_pass_sequentially" => second_alone(lab, stream, cutting, &candidates),
        _ => Err(no_such_call(name)),
    }
}

// The options of an analysis, and how many cells its table has.
fn options(lab: &Lab, workers: u64) -> Result<(Options, usize), Fail>
    ensures { IfOk result (λ r. r.1 ≡ length r.0.family.rows * r.0.width) }
{
    let family = Family::from_parts(lab.alloc, 256, &[(1, 0), (3, 1)])?;
    let cells = (family.depth() * 4) as usize;
    let options = Options::new(2, 1, 3, workers, 4, family)?;
    Ok((options, cells))
}

// What one worker finds in the first pass.
fn first_passed(lab: &Lab, stream: &Stream, cutting: &Cutting) -> Result<Said, Fail>
    requires { sum cutting.now ≡ length stream.now }
{
    let (options, cells) = options(lab, 1)?;
    let (sums, seat) = SharedSums::new(lab.alloc, cutting.count(), cells)?;
    told!(
        lab,
        first_pass(
            lab.alloc, &sums, seat, stream, cutting, &options, &OpenGate, 0
        ),
        AllocError
    )
}

// What the calling thread finds in the first pass.
fn first_passed_sequentially(lab: &Lab, stream: &Stream, cutting: &Cutting) -> Result<Said, Fail>
    requires { sum cutting.now ≡ length stream.now }
{
    let (options, _) = options(lab, 1)?;
    told!(
        lab,
        first_pass_sequentially(lab.alloc, stream, cutting, &options, &OpenGate),
        AllocError
    )
}

// Whether one worker has done the second pass.
fn second_passed(
    lab: &Lab,
    stream: &Stream,
    cutting: &Cutting,
    candidates: &Candidates,
) -> Result<Said, Fail>
    requires same_len { sum cutting.now ≡ length stream.now }
    requires two { length candidates.now ≡ 2 }
{
    let (sums, seat) = SharedSums::new(lab.alloc, cutting.count(), candidates.len())?;
    let pass = marked!(
        lab,
        second_pass(
            lab.alloc, &sums, seat, stream, cutting, candidates, &OpenGate, 0
        )
    );
    match pass {
        Ok(seat) => lab.answer(sums.holds_all(&seat)),
        Err(_) => lab.refused(),
    }
}

// What the calling thread counts in the second pass.
fn second_alone(
    lab: &Lab,
    stream: &Stream,
    cutting: &Cutting,
    candidates: &Candidates,
) -> Result<Said, Fail>
    requires { sum cutting.now ≡ length stream.now }
{
    told!(
        lab,
        second_pass_sequentially(lab.alloc, stream, cutting, candidates, &OpenGate, 1),
        AllocError
    )
}

// The calls on plans, options and the open gate that take no memory.
fn plain_calls(lab: &Lab) -> Result<Said, Fail> {
    let plan = Plan::balanced(lab.alloc, 4)?;
    let family = Family::from_parts(lab.alloc, 256, &[(1, 0)])?;
    lab.begin();
    let count = plan.count();
    let is_made = Options::new(2, 1, 3, 1, 4, family).is_ok();
    OpenGate.before(1, 0, 0);
    lab.end();
    lab.answer(format_args!("{count} {is_made}"))
}

// The stream in four pieces, by two workers.
fn analysed<R: Threads + Wait + Sync>(rt: &R, lab: &Lab, stream: &Stream) -> Result<Said, Fail> {
    let (options, _) = options(lab, 2)?;
    in_four(rt, lab, stream, &options)
}

// Analyses `stream` in four pieces by `options`.
fn in_four<R: Threads + Wait + Sync>(
    rt: &R,
    lab: &Lab,
    stream: &Stream,
    options: &Options,
) -> Result<Said, Fail> {
    let plan = Plan::balanced(lab.alloc, 4)?;
    let cutting = Cutting::even(lab.alloc, stream.len(), 4)?;
    told!(
        lab,
        analyse(rt, lab.alloc, stream, &cutting, &plan, options, &OpenGate),
        RunError::Memory
    )
}

/// A gate that counts its calls.
#[derive(Drop)]
struct Counting {
    calls: AtomicU64,
}

impl Gate for Counting {
    fn before(&self, _pass: u64, _worker: u64, _piece: u64) {
        self.calls.fetch_add(1, SeqCst);
    }
}

// 2,000 different keys of two bytes, and then the item a.
fn many_items(lab: &Lab) -> Result<Stream, Fail> {
    let mut stream = lab.many_keys(b"", 2000)?;
    lab.push(&mut stream, b'a', 1)?;
    Ok(stream)
}

// The many keys as one piece and the item a as another, by one worker, with the number of times
// that the gate was called.
fn analysed_many<R: Threads + Wait + Sync>(rt: &R, lab: &Lab) -> Result<Said, Fail> {
    let stream = many_items(lab)?;
    let (options, _) = options(lab, 1)?;
    counted(rt, lab, &stream, &options)
}

// Analyses `stream`, the 2,001 items in two pieces, by `options`, and counts the calls of its gate.
fn counted<R: Threads + Wait + Sync>(
    rt: &R,
    lab: &Lab,
    stream: &Stream,
    options: &Options,
) -> Result<Said, Fail> {
    let plan = Plan::chain(lab.alloc, 2)?;
    let cutting = Cutting::by_lengths(lab.alloc, stream.len(), &[2000, 1])?;
    let gate = Counting {
        calls: AtomicU64::new(0),
    };
    let done = marked!(
        lab,
        analyse(rt, lab.alloc, stream, &cutting, &plan, options, &gate)
    );
    told_after(lab, done, gate.calls.load(SeqCst))
}

// Prints what an analysis answered after this number of calls of its gate.
fn told_after(lab: &Lab, done: Result<Outcome, RunError>, calls: u64) -> Result<Said, Fail> {
    match done {
        Ok(outcome) => tell_counted(lab, &outcome, calls),
        Err(RunError::Memory) => lab.refused_after(calls),
        Err(fault) => Err(fault.into()),
    }
}

// Prints an outcome and the number of calls.
fn tell_counted(lab: &Lab, outcome: &Outcome, calls: u64) -> Result<Said, Fail> {
    lab.show(Counters(&outcome.summary))?;
    lab.show(Report(outcome.heavy.as_slice()))?;
    lab.answer(format_args!("{calls} "))
}
