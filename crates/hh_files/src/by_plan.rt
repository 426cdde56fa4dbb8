//! Reports by a plan: the records are kept as a stream, which workers analyse.

ghost use Rattle.std.specs.Prelude.{◌≡◌, List, false, true, length, IfOk, IfErr, IfSome, OnOk, MatchResult, Err, None, Ok, Some};
ghost use Rattle.hh_stream.specs.Cuttings.{max_pieces};
ghost use Rattle.hh_workers.specs.Trees.{leaves};
ghost use Rattle.hh_summaries.specs.Report.{IsShare, heavy};
ghost use Rattle.hh_stream.specs.Ranges.{in_range};
ghost use Rattle.hh_stream.specs.Weights.{Entry, total_of};
ghost use Rattle.hh_pieces.specs.Texts.{records_known};
ghost use Rattle.hh_records.specs.Streams.{Known, ReadsAs, text_known};
ghost use Rattle.hh_rows.specs.Thresholds.{threshold_of};
ghost use Rattle.hh_records.specs.Refusals.{RecordsRefused};
ghost use Rattle.hh_files.specs.Report.{AreKeysOf, AreOptions, IsOptionFault, IsReported, Names};
ghost use Rattle.hh_files.specs.Report.{PrintsRows, ReportRefused};
ghost use Rattle.hh_files.specs.Report.{IsPrepared, PlanNotMade, ReportsKeys, StartRefused, bad_option};
ghost use Rattle.hh_files.specs.Report.{settings_of};
ghost use Rattle.hh_rows.specs.Sinks.{failed_by};

use hh_counters::{Heavy, MAX_K};
use hh_countmin::{Family, MAX_DEPTH, MAX_WIDTH};
use hh_faults::ToolError;
use hh_pieces::{Records, read_records};
use hh_pool::{MAX_WORKERS, OpenGate, Options, Plan, RunError, analyse};
use hh_rows::{ReportOptions, RowOptions, Sink, Tree, printed_text, threshold_of, write_report};
use hh_stream::{Cutting, KeyHash, MAX_PIECES, Stream, in_range};
use std::alloc::{AllocError, Global};
use std::io::Read;
use std::sync::Wait;
use std::thread::Threads;

/// Tests the options, but for the tree, and gives the p and q of the threshold.
pub fn check_options(options: &ReportOptions) -> Result<(u64, u64), ToolError>
    ensures tests { MatchResult result
        (λ _. bad_option options.now ≡ None)
        (λ fault. bad_option options.now ≡ Some fault) }
    ensures kind { IfErr result IsOptionFault }
    ensures threshold { IfOk result (λ threshold.
        threshold_of options.now.k options.now.threshold ≡ Some threshold) }
    ensures share { IfOk result (λ threshold. IsShare threshold.0 threshold.1) }
{
    if !in_range(options.depth, MAX_DEPTH) {
        return Err(ToolError::BadDepth);
    }
    if !in_range(options.k, MAX_K) {
        return Err(ToolError::BadK);
    }
    if !in_range(options.workers, MAX_WORKERS) {
        return Err(ToolError::BadWorkers);
    }
    if !in_range(options.width, MAX_WIDTH) {
        return Err(ToolError::BadWidth);
    }
    let Some(threshold) = threshold_of(options.k, &options.threshold) else {
        return Err(ToolError::BadThreshold);
    };
    if !in_range(options.pieces, MAX_PIECES as u64) {
        return Err(ToolError::BadPieces);
    }
    Ok(threshold)
}

/// The plan of a tree over `pieces` pieces.
fn plan_of(alloc: Global, tree: &Tree, pieces: usize) -> Result<Plan, ToolError>
    requires { in_range pieces max_pieces ≡ true }
    ensures pieces { IfOk result (λ plan. length (leaves plan) ≡ pieces) }
    ensures tree { IfOk result (λ plan. Names tree.now pieces plan) }
    ensures refused { IfErr result (PlanNotMade tree.now pieces) }
{
    match tree {
        Tree::Chain => Ok(Plan::chain(alloc, pieces)?),
        Tree::Balanced => Ok(Plan::balanced(alloc, pieces)?),
        Tree::Text(text) => Plan::parse(alloc, text, pieces),
    }
}

/// The settings of an analysis with the threshold p/q, the family drawn from the seed, and keys
/// hashed by `hash`.
fn settings_of(
    alloc: Global,
    options: &ReportOptions,
    p: u64,
    q: u64,
    hash: KeyHash,
) -> Result<Options, AllocError>
    requires options { bad_option options.now ≡ None }
    requires threshold { threshold_of options.now.k options.now.threshold ≡ Some (p, q) }
    ensures { IfOk result (λ settings. settings ≡ settings_of options.now p q) }
{
    let family = Family::of_seed(alloc, options.seed, options.depth)?;
    let settings = Options::within(options.k, p, q, options.workers, options.width, family);
    Ok(settings.hashed_by(hash))
}

/// The heavy keys of a stream that is cut evenly, into as many pieces as the plan has.
fn heavy_keys<T: Threads + Wait + Sync>(
    rt: &T,
    alloc: Global,
    stream: &Stream,
    plan: &Plan,
    settings: &Options,
) -> Result<Vec<Heavy>, AllocError>
    ensures { IfOk result (λ rows. rows.items ≡ heavy stream.now settings.now.p settings.now.q) }
{
    let cutting = Cutting::of_pieces(alloc, stream.len(), plan.count())?;
    match analyse(rt, alloc, stream, &cutting, plan, settings, &OpenGate) {
        Ok(outcome) => Ok(outcome.heavy),
        Err(RunError::PlanMismatch) => unreachable!(),
        Err(RunError::Memory) => Err(AllocError),
    }
}

/// The stream that records are.
fn stream_of<R: Read + Drop>(alloc: Global, records: Records<R>) -> Result<Stream, ToolError>
    ensures stream { IfOk result (λ stream.
        ReadsAs (records_known R.remaining records) (Ok stream)) }
    ensures refused { IfErr result (RecordsRefused (records_known R.remaining records)) }
{
    Ok(read_records(alloc, records, Stream::new(alloc))?)
}

/// What a report is made by: the plan, and the threshold p/q.
#[derive(Drop)]
pub(crate) struct Prepared {
    pub(crate) plan: Plan,
    pub(crate) p: u64,
    pub(crate) q: u64,
}

/// Tests the options, before anything is read.
pub(crate) fn prepare(alloc: Global, options: &ReportOptions) -> Result<Prepared, ToolError>
    ensures prepared { IfOk result (IsPrepared options.now) }
    ensures refused { IfErr result (λ fault.
        (known : Known) → StartRefused options.now known fault) }
    ensures bad_option { IfSome (bad_option options.now) (λ fault. result ≡ Err fault) }
{
    let (p, q) = check_options(options)?;
    let plan = plan_of(alloc, &options.tree, options.pieces as usize)?;
    Ok(Prepared { plan, p, q })
}

/// The total of records and their heavy keys, by the stream that they are, which is kept.
fn keys_of_stream<T: Threads + Wait + Sync, R: Read + Drop>(
    rt: &T,
    alloc: Global,
    options: &ReportOptions,
    prepared: &Prepared,
    records: Records<R>,
) -> Result<(u64, Vec<Heavy>), ToolError>
    requires { IsPrepared options.now prepared.now }
    ensures keys { IfOk result (λ keys. AreKeysOf (records_known R.remaining records)
        prepared.now.p prepared.now.q keys.0 keys.1.items) }
    ensures refused { IfErr result (RecordsRefused (records_known R.remaining records)) }
{
    let (p, q) = (prepared.p, prepared.q);
    let settings = settings_of(alloc, options, p, q, records.layout.hash)?;
    let stream = stream_of(alloc, records)?;
    let keys = heavy_keys(rt, alloc, &stream, &prepared.plan, &settings)?;
    Ok((stream.total(), keys))
}

/// The total of some records, and the keys that a report of them has.
fn reported<T: Threads + Wait + Sync, R: Read + Drop>(
    rt: &T,
    alloc: Global,
    options: &ReportOptions,
    records: Records<R>,
) -> Result<(u64, Vec<Heavy>), ToolError>
    ensures keys { IfOk result (λ keys. (xs : List Entry) × AreOptions options.now
        × ReportsKeys options.now (records_known R.remaining records) xs keys.1.items
        × (keys.0 ≡ total_of xs)) }
    ensures refused { IfErr result
        (StartRefused options.now (records_known R.remaining records)) }
    ensures bad_option { IfSome (bad_option options.now) (λ fault. result ≡ Err fault) }
{
    match prepare(alloc, options) {
        Ok(prepared) => keys_of_stream(rt, alloc, options, &prepared, records),
        Err(fault) => Err(fault),
    }
}

/// Reads records as [`read_stream`](hh_pieces::read_stream) does, and writes the report of their
/// stream: exactly the keys whose weight is more than the threshold's share of the total, with
/// their true weights, by falling weight and then by rising key. The stream is kept and cut evenly
/// into pieces, which workers summarise in threads of their own; the summaries are merged by the
/// tree. The report is the same for all other options.
///
/// The options are tested before anything is read, in the order depth, k, workers, width,
/// threshold, pieces and tree. A refusal other than [`ToolError::WriteFault`] has written nothing.
pub fn run_report<T: Threads + Wait + Sync, R: Read + Drop, S: Sink>(
    rt: &T,
    alloc: Global,
    options: &ReportOptions,
    reader: R,
    sink: &mut S,
) -> Result<(), ToolError>
    requires { S.has_failed sink.old ≡ false }
    ensures reported { OnOk result
        (IsReported options.now (text_known (R.remaining reader))
        (S.taken sink.old) (S.taken sink.new)) }
    ensures refused { IfErr result (λ fault.
        ReportRefused options.now (text_known (R.remaining reader))
        (S.taken sink.old) (S.taken sink.new) fault) }
    ensures bad_option { IfSome (bad_option options.now) (λ fault. result ≡ Err fault) }
    ensures flushed { OnOk result (S.is_flushed sink.new ≡ true) }
    ensures failed { S.has_failed sink.new ≡ failed_by result }
{
    let records = Records::of_reader(alloc, reader);
    let (_, keys) = reported(rt, alloc, options, records)?;
    write_report(alloc, sink, &keys)
}

/// Makes the rows that [`run_report`] writes, of `records` in texts and columns of one's own, as
/// `rows` wants them. Shares are of the total of all records.
pub fn report_rows<T: Threads + Wait + Sync, R: Read + Drop>(
    rt: &T,
    alloc: Global,
    options: &ReportOptions,
    rows: &RowOptions,
    records: Records<R>,
) -> Result<Vec<u8>, ToolError>
    ensures rows { IfOk result (λ text. AreOptions options.now
        × PrintsRows rows.now options.now (records_known R.remaining records) text.items) }
    ensures refused { IfErr result
        (StartRefused options.now (records_known R.remaining records)) }
    ensures bad_option { IfSome (bad_option options.now) (λ fault. result ≡ Err fault) }
{
    let (total, keys) = reported(rt, alloc, options, records)?;
    Ok(printed_text(alloc, total, rows, &keys)?)
}
