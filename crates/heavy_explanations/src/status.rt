//! How a run of the program ends: what it prints on standard error, and its exit status.

ghost use Rattle.std.specs.Prelude.{◌≡◌, IfErr, OnOk};
ghost use Rattle.std.specs.Process.{exit_status};
ghost use Rattle.clap.specs.Words.{kind_of};
ghost use Rattle.heavy_explanations.specs.Usage.{EndsUsage};
ghost use Rattle.hh_faults.specs.Status.{status_of};

use crate::comparisons::tell_outside;
use crate::escaped::{Lines, Name};
use crate::explain::{
    explain_comparison, explain_file, explain_open, explain_out, explain_records, names_records,
};
use crate::file_names::FileNames;
use crate::notes::{
    is_unparted, print_bad, print_few_keys, print_format_hint, print_long, print_open,
};
use crate::record_place::Texts;
use crate::samples::{format_hints, with_files};
use crate::saved_kinds::SavedFiles;
use crate::thresholds::tell_threshold;
use heavy_host::{OtherKind, numbered, print_fault, status_after};
use heavy_inputs::Inputs;
use heavy_requests::{Asked, UsageReport};
use hh_commands::Comparison;
use hh_faults::ToolError;
use std::io::IsTerminal;
use std::process::ExitCode;

/// The exit status of the command line's own faults.
const USAGE: u8 = 2;

/// Gathers what can be looked at again of the records that `asked` names.
fn texts_of<'a>(inputs: Inputs<'a>, asked: &'a Asked) -> Texts<'a> {
    Texts {
        rt: inputs.rt,
        records: &asked.records,
        saved: asked.saved_before_records(),
        begin: &inputs.notes.begin,
    }
}

/// Gathers what can be looked at again of the saved files that `asked` names.
fn saved_files<'a>(inputs: Inputs<'a>, asked: &'a Asked) -> SavedFiles<'a> {
    SavedFiles {
        rt: inputs.rt,
        names: FileNames::of(asked),
        begin: &inputs.notes.begin,
    }
}

/// Prints more about the `fault` of what was `asked` for, by what was noted of the inputs and
/// `compared`.
fn explain(inputs: Inputs<'_>, fault: &ToolError, asked: &Asked, compared: &Comparison) {
    let (rt, notes, records) = (inputs.rt, inputs.notes, &asked.records);
    let files = saved_files(inputs, asked);
    if let ToolError::BadThreshold = fault {
        tell_threshold(rt, asked);
    }
    explain_file(files, fault, &notes.unread);
    explain_out(rt, fault, asked, &notes.unread);
    let (first, decimals) = (files.names.input(1), records.layout.decimals);
    explain_comparison(rt, first, fault, compared, decimals);
    explain_open(rt, fault, asked);
    explain_records(texts_of(inputs, asked), fault);
}

/// Prints a fault of what was asked for. More about it comes where that is asked for, standard
/// error is a terminal, the fault is one of records that are named, a pipe could not be kept, or a
/// file that is named could not be written.
fn print_explained(inputs: Inputs<'_>, fault: &ToolError, asked: &Asked, compared: &Comparison) {
    print_fault(inputs.rt, fault);
    let is_unkept = inputs.notes.unread.is_unkept();
    let is_unwritten = matches!(fault, ToolError::WriteFault { .. }) && asked.out.is_some();
    if is_unkept
        || is_unwritten
        || asked.explains_faults(inputs.rt)
        || names_records(fault, asked)
    {
        explain(inputs, fault, asked, compared);
    }
}

/// Prints that a summary has a k of its own, where one was given and a fault has a second line.
fn print_own_k(rt: &HostRuntime, report: &UsageReport) {
    if report.gives_k && (report.explains || rt.stderr().is_terminal()) {
        let _ = rt.eprintln("  the summary has a k of its own, which `heavy describe` tells");
    }
}

/// Prints help or a fault of the command line as `clap` words it. In a fault, which may have words
/// of the command line, control characters are escaped. Help that could not be printed is a
/// device's fault.
pub fn status_of_usage(rt: &HostRuntime, report: &UsageReport) -> ExitCode
    ensures { EndsUsage (kind_of report.now.error) (exit_status result) }
{
    if report.error.exit_code() == 0 {
        return match report.error.print(rt) {
            Ok(()) => ExitCode::SUCCESS,
            Err(_) => status_after(rt, ToolError::WriteFault { written: 0 }),
        };
    }
    match format!(in rt.alloc(); "{}", report.error) {
        Ok(text) => {
            let (begin, end) = report.without_tip(&text);
            let _ = eprint!(rt; "{}{}", Lines(begin), Lines(end));
            print_own_k(rt, report);
            ExitCode::from(USAGE)
        }
        Err(_) => status_after(rt, ToolError::Memory),
    }
}

/// Says what `kind` is that no new file replaces.
fn words_of(kind: OtherKind) -> &'static str {
    match kind {
        OtherKind::Standard => "stands for a standard stream",
        OtherKind::Folder => "is a folder",
        OtherKind::Device => "is a device",
        OtherKind::Pipe => "is a pipe",
        OtherKind::Socket => "is a socket",
    }
}

/// Prints that `name`, which was given for a file to write, is of another `kind`, and gives the
/// status of wrong usage.
pub fn status_of_kind(rt: &HostRuntime, name: &[u8], kind: OtherKind) -> ExitCode {
    let (name, words) = (Name(name), words_of(kind));
    let _ = eprintln!(rt; "heavy: --out takes a file, and {name} {words}");
    ExitCode::from(USAGE)
}

/// Prints notes on what was read and on what was `compared`, and on the `rows` that were written.
fn print_notes(inputs: Inputs<'_>, asked: &Asked, compared: &Comparison, rows: u64) {
    let (rt, layout) = (inputs.rt, &asked.records.layout);
    let (texts, names) = (texts_of(inputs, asked), FileNames::of(asked));
    let endings = with_files(inputs.notes.endings.get(), texts, inputs.form.delimiter);
    if asked.explains_faults(rt) {
        let hints = format_hints(texts, inputs.form);
        if is_unparted(layout) {
            print_format_hint(rt, hints);
        }
        print_open(rt, endings.open, names);
        print_few_keys(saved_files(inputs, asked), asked, rows, hints.has_records);
    }
    print_long(rt, endings.long, names);
    print_bad(rt, inputs.notes.bad.count(), &layout.bad_as);
    if let Some(outside) = &compared.outside {
        let words = "heavy: note: these aren't the records that were summarised: ";
        tell_outside(rt, words, names.input(1), outside, layout.decimals);
    }
}

/// Gives the number of the first file of records that `asked` names, and 0 where it names none.
fn first_number(asked: &Asked) -> u64 {
    if asked.records.files.is_empty() {
        0
    } else {
        asked.saved_before_records().saturating_add(1)
    }
}

/// Prints what came of what was asked for, of which `rows` were written, and gives its status.
/// Where files of records are not what they were before, the first one has the fault.
pub fn status_of(
    inputs: Inputs<'_>,
    asked: &Asked,
    outcome: Result<(), ToolError>,
    compared: &Comparison,
    rows: u64,
) -> ExitCode
    ensures done { OnOk outcome (exit_status result ≡ 0) }
    ensures refused { IfErr outcome (λ fault. exit_status result ≡ status_of fault) }
{
    match &outcome {
        Ok(()) => print_notes(inputs, asked, compared, rows),
        Err(fault) => {
            let number = inputs.notes.unread.number().max(first_number(asked));
            print_explained(inputs, &numbered(*fault, number), asked, compared);
        }
    }
    heavy_host::status_of(outcome)
}
