//! The text of a fault that is given in numbers.

ghost use Rattle.std.specs.Prelude.{◌≡◌, ◌≢◌, ◌<◌, ◌≤◌, ◌⊎◌, IfSome, length};
ghost use Rattle.heavy_ffi.specs.Faults.{cause_of, file_cause, key_cause, kind_of};
ghost use Rattle.heavy_ffi.specs.Faults.{merge_cause, number_of, record_cause};

use crate::fault::Fault;
use crate::room::give;
use hh_faults::{BadRecordCause, KeyCause, MergeCause, SavedFault, ToolError};
use std::alloc::{AllocError, Global};

/// The status of a call that had no memory.
const MEMORY: u32 = 4;

/// The kind of the fault of memory.
const NO_MEMORY: u32 = 18;

fn record_cause_of(number: u32) -> Option<BadRecordCause>
    ensures { IfSome result (λ cause. record_cause cause ≡ number) }
{
    match number {
        1 => Some(BadRecordCause::FieldCount),
        2 => Some(BadRecordCause::EmptyKey),
        3 => Some(BadRecordCause::KeyTooLong),
        4 => Some(BadRecordCause::BadWeight),
        5 => Some(BadRecordCause::ZeroWeight),
        6 => Some(BadRecordCause::TotalTooLarge),
        _ => None,
    }
}

fn file_fault_of(number: u32) -> Option<SavedFault>
    ensures { IfSome result (λ fault. file_cause fault ≡ number) }
{
    match number {
        1 => Some(SavedFault::Truncated),
        2 => Some(SavedFault::BadMagic),
        3 => Some(SavedFault::BadKind),
        4 => Some(SavedFault::BadK),
        5 => Some(SavedFault::BadCount),
        6 => Some(SavedFault::BadKey),
        7 => Some(SavedFault::KeyOrder),
        8 => Some(SavedFault::BadCounter),
        9 => Some(SavedFault::SumTooLarge),
        10 => Some(SavedFault::BadWidth),
        11 => Some(SavedFault::BadDepth),
        12 => Some(SavedFault::BadCoefficient),
        13 => Some(SavedFault::TotalTooLarge),
        14 => Some(SavedFault::RowSum),
        15 => Some(SavedFault::Trailing),
        17 => Some(SavedFault::Damaged),
        18 => Some(SavedFault::BadDecimals),
        _ => None,
    }
}

fn merge_cause_of(number: u32) -> Option<MergeCause>
    ensures { IfSome result (λ cause. merge_cause cause ≡ number) }
{
    match number {
        1 => Some(MergeCause::DifferentK),
        2 => Some(MergeCause::DifferentFamily),
        3 => Some(MergeCause::DifferentWidth),
        4 => Some(MergeCause::TotalTooLarge),
        _ => None,
    }
}

fn key_cause_of(number: u32) -> Option<KeyCause>
    ensures { IfSome result (λ cause. key_cause cause ≡ number) }
{
    match number {
        1 => Some(KeyCause::Empty),
        2 => Some(KeyCause::TooLong),
        _ => None,
    }
}

/// The refusal with a cause or a number that these are.
fn numbered_of(kind: u32, cause: u32, number: u64) -> Option<ToolError>
    ensures { IfSome result (λ refusal. (kind_of refusal ≡ kind)
        × (cause_of refusal ≡ cause) × (number_of refusal ≡ number)) }
{
    match kind {
        9 => match record_cause_of(cause) {
            Some(cause) => Some(ToolError::BadRecord { number, cause }),
            None => None,
        },
        10 => match file_fault_of(cause) {
            Some(fault) => Some(ToolError::BadFile { number, fault }),
            None => None,
        },
        12 => match merge_cause_of(cause) {
            Some(cause) => Some(ToolError::CannotMerge { number, cause }),
            None => None,
        },
        13 => match key_cause_of(cause) {
            Some(cause) => Some(ToolError::BadKey { number, cause }),
            None => None,
        },
        11 if cause == 0 => Some(ToolError::MixedKinds { number }),
        27 if cause == 0 => Some(ToolError::TopUncertain {
            certain: number,
            most: 0,
        }),
        _ => None,
    }
}

/// The refusal with neither cause nor number that this kind is.
fn plain_of(kind: u32) -> Option<ToolError>
    ensures { IfSome result (λ refusal. (kind_of refusal ≡ kind)
        × (cause_of refusal ≡ 0) × (number_of refusal ≡ 0)) }
{
    match kind {
        1 => Some(ToolError::BadDepth),
        2 => Some(ToolError::BadK),
        4 => Some(ToolError::BadWidth),
        7 => Some(ToolError::BadMethod),
        14 => Some(ToolError::NotCounters),
        15 => Some(ToolError::TotalDiffers),
        19 => Some(ToolError::BadThreshold),
        24 => Some(ToolError::NoColumn),
        25 => Some(ToolError::WeightOutside),
        27 => Some(ToolError::TopUncertain {
            certain: 0,
            most: 0,
        }),
        _ => None,
    }
}

/// The program's refusal for a fault, if a call can give that fault.
fn refusal_of(fault: &Fault) -> Option<ToolError>
    ensures { IfSome result (λ refusal. (kind_of refusal ≡ fault.now.kind)
        × (cause_of refusal ≡ fault.now.cause) × (number_of refusal ≡ fault.now.number)) }
{
    if fault.cause == 0 && fault.number == 0 {
        return plain_of(fault.kind);
    }
    numbered_of(fault.kind, fault.cause, fault.number)
}

/// The text of a fault that is no refusal of the program.
fn other_text(alloc: Global, fault: &Fault) -> Result<String, AllocError> {
    match (fault.kind, fault.cause, fault.number) {
        (20, 0, number) => format!(in alloc;
            "end {number}: before the one before it, or after all bytes"
        ),
        (21, 0, 0) => "weights must be none, or one for each end".to_string(alloc),
        (22, 0, 0) => "delimiter must be no quote, CR or LF".to_string(alloc),
        (23, 0, 0) => "columns must be numbers from 1 on or, with header 1, names".to_string(alloc),
        (26, 0, 0) => {
            "header, allow_zero and has_weight must be 0 or 1, decimals 0 to 9".to_string(alloc)
        }
        (28, 0, 0) => "a handle is NULL, or is lent twice".to_string(alloc),
        _ => "unknown fault".to_string(alloc),
    }
}

/// The text of a fault.
fn text_of(alloc: Global, fault: &Fault) -> Result<String, AllocError> {
    match refusal_of(fault) {
        Some(refusal) => refusal.to_string(alloc),
        None => other_text(alloc, fault),
    }
}

/// Gives the text that the program has for a fault.
#[unsafe(no_mangle)]
pub extern "C" fn proved_strerror(
    alloc: Global,
    fault: &Fault,
    out: &mut [u8],
    needed: &mut usize,
) -> u32
    ensures statuses { (result ≡ 0) ⊎ ((result ≡ 4) ⊎ (result ≡ 5)) }
    ensures within { result ≡ 0 → needed.new ≤ length out.old }
    ensures small { result ≡ 5 → length out.old < needed.new }
    ensures no_text { result ≡ 4 → needed.new ≡ 0 }
    ensures unchanged { result ≢ 0 → out.new ≡ out.old }
    ensures always { fault.now.kind ≡ 18 → result ≢ 4 }
{
    if fault.kind == NO_MEMORY {
        return give(b"out of memory", out, needed);
    }
    match text_of(alloc, fault) {
        Ok(text) => give(text.as_bytes(), out, needed),
        Err(_) => {
            *needed = 0;
            MEMORY
        }
    }
}
