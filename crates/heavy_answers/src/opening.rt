//! Opens the inputs of records that a request names.

ghost use Rattle.std.specs.Prelude.{◌≡◌, ◌<◌, ◌∷◌, ◌++◌, ◌||◌, ◌⊎◌, ℕ, [], false, true, length, map, Err, IfErr, IfOk, IsErr, OnOk};
ghost use Rattle.hh_records.specs.Layouts.{every};
ghost use Rattle.hh_pieces.specs.Texts.{records_known};
ghost use Rattle.hh_records.specs.LayoutWords.{LayoutRefused, SaysLayout};
ghost use Rattle.hh_stream.specs.Ranges.{in_range};
ghost use Rattle.hh_workers.specs.Workers.{max_workers};
ghost use Rattle.heavy_host.specs.Opening.{names_standard};
ghost use Rattle.heavy_answers.specs.Inputs.{Agree, AreInputs, AreRecords, IsReadOnce};
ghost use Rattle.heavy_answers.specs.Inputs.{input_names};
ghost use Rattle.heavy_answers.specs.Refusals.{IsUnkept, IsUnopened, IsUnopenedAt};
ghost use Rattle.heavy_answers.specs.Refusals.{OpenRefused};
ghost use Rattle.heavy_answers.specs.Refusals.{SourcesRefused};

use crate::host::Host;
use heavy_host::is_standard;
use heavy_requests::{Asked, RecordWords};
use hh_faults::ToolError;
use hh_pieces::{Records, SourceRecords};
use hh_records::{Layout, layout_of};
use hh_stream::in_range;
use hh_workers::MAX_WORKERS;

/// Pushes `one` after `others`.
pub(crate) fn push_to<T: Drop>(others: &mut Vec<T>, one: T) -> Result<(), ToolError>
    ensures pushed { OnOk result (others.new.items ≡ others.old.items ++ one ∷ []) }
    ensures refused { IsErr result → result ≡ Err ToolError.Memory }
{
    match others.push(one) {
        Ok(()) => Ok(()),
        Err(_) => Err(ToolError::Memory),
    }
}

/// Whether standard input is taken once `name` is open: it `is_taken` before, or `name` is `-`.
fn is_taken_by(is_taken: bool, name: &[u8]) -> bool
    ensures taken { result ≡ (is_taken || names_standard name.now) }
{
    is_taken || is_standard(name)
}

/// Opens the inputs `names`, in order. The first has the number `saved` + 1, since `saved` saved
/// files are named before it; an error has the number of the input that can't be opened. Where
/// `-` is named several times, the first gets standard input and the others are empty.
fn open_named<H: Host>(host: &H, names: &[Vec<u8>], saved: u64) -> Result<Vec<H::Input>, ToolError>
    ensures opened { IfOk result (λ inputs. AreInputs (H.opens host.now) false
        (map (λ name. name.items) names.now) (map H.text inputs.items)) }
    ensures refused { IfErr result (λ fault. (fault ≡ ToolError.Memory) ⊎ ((place : ℕ)
        × IsUnopenedAt (H.unopened host.now) (map (λ w. w.items) names.now) saved fault place)) }
{
    let mut inputs = Vec::new(host.alloc());
    let mut is_taken = false;
    for (place, name) in names.iter().enumerate() {
        let number = saved.saturating_add(place as u64 + 1);
        push_to(&mut inputs, host.open(name, number, is_taken)?)?;
        is_taken = is_taken_by(is_taken, name);
    }
    Ok(inputs)
}

/// Opens the files of records that `asked` names after its saved files, or else standard input.
fn open_inputs<H: Host>(host: &H, asked: &Asked) -> Result<Vec<H::Input>, ToolError>
    ensures opened { IfOk result (λ inputs. AreInputs (H.opens host.now) false
        (input_names asked.now.records) (map H.text inputs.items)) }
    ensures refused { IfErr result (λ fault. (fault ≡ ToolError.Memory)
        ⊎ IsUnopened (H.unopened host.now) (map (λ w. w.items) asked.now.records.files.items)
        (length asked.now.files.items) fault) }
{
    let names = &asked.records.files;
    if !names.is_empty() {
        return open_named(host, names, asked.files.len() as u64);
    }
    let mut inputs = Vec::new(host.alloc());
    push_to(&mut inputs, host.open(b"-", 0, false)?)?;
    Ok(inputs)
}

/// Reads the layout that `words` describe. Keys are hashed in the way that `host` chooses for this
/// run. The error is that an option is wrong, or that memory ran out.
fn layout_on<H: Host>(host: &H, words: &RecordWords) -> Result<Layout, ToolError>
    ensures said { IfOk result (SaysLayout words.now.layout) }
    ensures refused { IfErr result (LayoutRefused words.now.layout) }
{
    let mut layout = layout_of(host.alloc(), &words.layout)?;
    layout.hash = host.hash();
    host.watch_bad(&layout);
    Ok(layout)
}

/// Turns open `inputs` into sources that can be read several times, in order. A pipe is read to its
/// end and kept. If one of them fails on the way, it is the last source: reading refuses it before
/// it would come to the inputs after it, which are dropped.
fn sources_of<H: Host>(host: &H, inputs: Vec<H::Input>) -> Result<Vec<H::File>, ToolError>
    ensures texts { IfOk result (λ files.
        Agree (every H.text inputs.items) (every H.File.bytes files.items)) }
    ensures refused { IfErr result IsUnkept }
{
    let mut files = Vec::new(host.alloc());
    for input in inputs {
        let file = host.source(input)?;
        let is_whole = host.is_whole(&file);
        push_to(&mut files, file)?;
        if !is_whole {
            return Ok(files);
        }
    }
    Ok(files)
}

/// Files and kept bytes with the layout of their records.
#[derive(Drop)]
pub(crate) struct KeptRecords<F> {
    layout: Layout,
    files: Vec<F>,
}

impl<F> KeptRecords<F> {
    /// Their records, which workers read.
    pub(crate) fn records(&self) -> SourceRecords<'_, F>
        ensures layout { result.layout.now ≡ self.now.layout }
        ensures sources { result.sources.now ≡ self.now.files.items }
    {
        SourceRecords {
            layout: &self.layout,
            sources: &self.files,
        }
    }
}

/// Inputs of records that are open, with the layout of the records.
#[derive(Drop)]
pub(crate) struct Opened<I> {
    layout: Layout,
    inputs: Vec<I>,
}

/// Reads the layout of the records that are `asked` for, and then opens their inputs. If the layout
/// is wrong, nothing is opened.
pub(crate) fn open<H: Host>(host: &H, asked: &Asked) -> Result<Opened<H::Input>, ToolError>
    ensures layout { IfOk result (λ opened.
        SaysLayout asked.now.records.layout opened.layout) }
    ensures some { IfOk result (λ opened. 0 < length opened.inputs.items) }
    ensures opened { IfOk result (λ opened. AreInputs (H.opens host.now) false
        (input_names asked.now.records) (map H.text opened.inputs.items)) }
    ensures refused { IfErr result (OpenRefused (H.unopened host.now) asked.now) }
{
    let layout = layout_on(host, &asked.records)?;
    let inputs = open_inputs(host, asked)?;
    Ok(Opened { layout, inputs })
}

/// The records of inputs that are open, for one reading, one after the other.
fn into_records<H: Host>(
    host: &H,
    opened: Opened<H::Input>,
) -> Result<Records<H::Reader>, ToolError>
    requires some { 0 < length opened.inputs.items }
    ensures layout { IfOk result (λ records. records.layout ≡ opened.layout) }
    ensures texts { IfOk result (λ records. Agree (every H.text opened.inputs.items)
        (every H.Reader.remaining (records.first ∷ records.others.items))) }
    ensures refused { IsErr result → result ≡ Err ToolError.Memory }
{
    let Opened { layout, inputs } = opened;
    let mut readers = Vec::new(host.alloc());
    for input in inputs {
        push_to(&mut readers, host.reader(input))?;
    }
    let first = readers.remove(0);
    Ok(Records {
        layout,
        first,
        others: readers,
    })
}

/// The records that are `asked` for by one thread, which reads them once.
pub(crate) fn open_records<H: Host>(
    host: &H,
    asked: &Asked,
) -> Result<Records<H::Reader>, ToolError>
    ensures records { IfOk result (λ records. AreRecords (H.opens host.now) asked.now.records
        records.layout (records_known H.Reader.remaining records)) }
    ensures refused { IfErr result (OpenRefused (H.unopened host.now) asked.now) }
{
    let opened = open(host, asked)?;
    Ok(into_records(host, opened)?)
}

/// The records of inputs that are open, for several readings.
pub(crate) fn into_kept<H: Host>(
    host: &H,
    opened: Opened<H::Input>,
) -> Result<KeptRecords<H::File>, ToolError>
    ensures layout { IfOk result (λ sources. sources.layout ≡ opened.layout) }
    ensures texts { IfOk result (λ sources.
        Agree (every H.text opened.inputs.items) (every H.File.bytes sources.files.items)) }
    ensures refused { IfErr result IsUnkept }
{
    let Opened { layout, inputs } = opened;
    let files = sources_of(host, inputs)?;
    Ok(KeptRecords { layout, files })
}

/// Records that are read once.
#[derive(Drop)]
pub(crate) enum OnePass<R, F> {
    /// By workers.
    Files(KeptRecords<F>),
    /// By one thread.
    Stream(Records<R>),
}

/// Opens the records that are `asked` for, to be read once. If all inputs are files of the disk
/// that aren't empty, workers read them, unless this thread `is_alone`; else one thread reads all
/// inputs. If that thread would read but the number of workers is out of range, it gives no files
/// at all: nothing is read, and the call that gets them refuses the number.
pub(crate) fn open_once<H: Host>(
    host: &H,
    asked: &Asked,
    is_alone: bool,
) -> Result<OnePass<H::Reader, H::File>, ToolError>
    requires alone { is_alone ≡ true → in_range asked.now.options.workers max_workers ≡ true }
    ensures records { IfOk result (IsReadOnce (H.opens host.now) H.Reader.remaining H.File.bytes
        asked.now) }
    ensures refused { IfErr result (SourcesRefused (H.unopened host.now) asked.now) }
{
    let opened = open(host, asked)?;
    if !is_alone && opened.inputs.iter().all(|input| host.is_disk_file(input)) {
        return Ok(OnePass::Files(into_kept(host, opened)?));
    }
    if in_range(asked.options.workers, MAX_WORKERS) {
        return Ok(OnePass::Stream(into_records(host, opened)?));
    }
    Ok(OnePass::Files(KeptRecords {
        layout: opened.layout,
        files: Vec::new(host.alloc()),
    }))
}
