//! More about a fault, in a second line: where standard error is a terminal, or where it is asked
//! for. No contract says what these lines say, and each may change.

use crate::bad_records::tell_record;
use crate::columns::tell_columns;
use crate::comparisons::{tell_next, tell_outside, tell_totals, tell_uncertain};
use crate::escaped::{Name, print_about};
use crate::reasons::{tell_standard, tell_unkept, tell_unread, tell_unwritten};
use crate::record_place::Texts;
use crate::saved_kinds::SavedFiles;
use heavy_host::Unread;
use heavy_requests::Asked;
use hh_commands::Comparison;
use hh_faults::ToolError;

/// Whether a fault is one of records that files or options of records name. Of plain records on
/// standard input a fault is one line.
pub(crate) fn names_records(fault: &ToolError, asked: &Asked) -> bool {
    if !asked.verb.reads_records() || asked.records.are_plain() {
        return false;
    }
    match fault {
        ToolError::FileFault { number } => *number > asked.saved_before_records(),
        ToolError::ReadFault | ToolError::BadRecord { .. } | ToolError::NoColumn => true,
        _ => false,
    }
}

/// Prints more about the `fault` of one of the `files`, where there is more to say.
pub(crate) fn explain_file(files: SavedFiles<'_>, fault: &ToolError, unread: &Unread) {
    let (rt, names) = (files.rt, files.names);
    match fault {
        ToolError::ReadFault | ToolError::FileFault { .. } if unread.is_unkept() => {
            tell_unkept(rt, unread);
        }
        ToolError::ReadFault => tell_standard(rt, unread),
        ToolError::FileFault { number } => tell_unread(rt, names.input(*number), unread),
        ToolError::BadFile { number, .. } => files.tell_looks(*number),
        ToolError::MixedKinds { number } => files.tell_kinds(*number),
        ToolError::CannotMerge { number, cause } => files.tell_unmerged(*number, *cause),
        ToolError::NotCounters => {
            print_about(rt, names.input(1), " ", "is a Count-Min table");
        }
        _ => {}
    }
}

/// Prints more about the `fault` of a summary `name` and records, by what was `compared`, with
/// `decimals` digits after the point of a weight.
pub(crate) fn explain_comparison(
    rt: &HostRuntime,
    name: Name<'_>,
    fault: &ToolError,
    compared: &Comparison,
    decimals: u8,
) {
    match fault {
        ToolError::TotalDiffers => {
            if let Some(totals) = compared.totals {
                tell_totals(rt, name, totals, decimals);
            }
        }
        ToolError::WeightOutside => {
            if let Some(outside) = &compared.outside {
                tell_outside(rt, "  ", name, outside, decimals);
            }
        }
        _ => {}
    }
}

/// Prints why the file that was `asked` for couldn't be written, where that is the `fault`.
pub(crate) fn explain_out(rt: &HostRuntime, fault: &ToolError, asked: &Asked, unread: &Unread) {
    if let (ToolError::WriteFault { .. }, Some(name)) = (fault, &asked.out) {
        tell_unwritten(rt, Name(name.as_slice()), unread);
    }
}

/// Prints more about the `fault` of keys that were `asked` for, where counters leave some open.
pub(crate) fn explain_open(rt: &HostRuntime, fault: &ToolError, asked: &Asked) {
    match fault {
        ToolError::TopUncertain { most, .. } => {
            tell_next(rt, *most, asked.records.layout.decimals, asked.memory);
        }
        ToolError::ReportUncertain { uncertain, .. } => {
            tell_uncertain(rt, *uncertain, asked.memory);
        }
        _ => {}
    }
}

/// Prints more about the `fault` of records, where there is more to say.
pub(crate) fn explain_records(texts: Texts<'_>, fault: &ToolError) {
    let (rt, layout) = (texts.rt, &texts.records.layout);
    match fault {
        ToolError::BadRecord { number, cause } => tell_record(texts, *number, *cause),
        ToolError::NoColumn => tell_columns(texts),
        ToolError::BadKey { .. } if layout.bad_as.is_some() => {
            let _ = rt.eprintln("  --bad-as takes a key of 1 to 4096 bytes");
        }
        ToolError::BadColumn if layout.format.is_json() => {
            let _ = rt.eprintln("  --json wants --key: the name of a member, or a JSON pointer");
        }
        _ => {}
    }
}
