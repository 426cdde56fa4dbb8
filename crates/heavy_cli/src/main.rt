//! The program `heavy`: it reads the command line, answers it on standard output or in a file, and
//! writes errors and notes to standard error. Closed standard streams are held before any file is
//! opened.
#![tactic(auto)]

use heavy_answers::{answer, answer_in_file};
use heavy_explanations::{status_of, status_of_kind, status_of_usage};
use heavy_host::{NoOut, OutFile, hold_closed, status_after};
use heavy_inputs::{InputNotes, Inputs, shared_progress};
use heavy_progress::{RowCount, RowWriter};
use heavy_requests::{Asked, UsageError, read_request};
use hh_commands::Comparison;
use hh_faults::ToolError;
use hh_rows::Out;
use std::process::ExitCode;
use std::sync::Wait;
use std::thread::Threads;

/// Answers what is `asked` for in the file `name`, and counts the `rows` of the answer.
fn answer_in<T: Threads + Wait + Sync>(
    threads: &T,
    inputs: Inputs<'_>,
    asked: &Asked,
    name: &[u8],
    compared: &mut Comparison,
    rows: &RowCount,
) -> Result<(), NoOut> {
    let mut file = OutFile::find(inputs.rt, name, &inputs.notes.unread)?;
    match answer_in_file(threads, &inputs, asked, &mut file, compared) {
        Ok(bytes) => {
            rows.add(&bytes);
            Ok(())
        }
        Err(fault) => Err(NoOut::Fault(fault)),
    }
}

fn main(rt: HostRuntime) -> ExitCode {
    let Ok(_held) = hold_closed(&rt) else {
        return status_after(&rt, ToolError::ReadFault);
    };
    let asked = match read_request(&rt, rt.alloc()) {
        Ok(asked) => asked,
        Err(UsageError::Reported(report)) => return status_of_usage(&rt, &report),
        Err(UsageError::Memory) => return status_after(&rt, ToolError::Memory),
    };
    let mut compared = Comparison::new(true);
    let notes = InputNotes::new(rt.alloc());
    let progress = shared_progress(&rt, &asked);
    let inputs = Inputs::new(&rt, &asked, &notes, progress.as_ref());
    let rows = RowCount::new();
    let outcome = match &asked.out {
        None => {
            let mut out = Out::new(RowWriter::new(rt.stdout(), &rows));
            answer(&rt, &inputs, &asked, &mut out, &mut compared)
        }
        Some(name) => match answer_in(&rt, inputs, &asked, name, &mut compared, &rows) {
            Ok(()) => Ok(()),
            Err(NoOut::Other(kind)) => return status_of_kind(&rt, name, kind),
            Err(NoOut::Fault(fault)) => Err(fault),
        },
    };
    status_of(inputs, &asked, outcome, &compared, rows.number())
}
