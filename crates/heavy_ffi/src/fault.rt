//! A fault as numbers.

ghost use Rattle.std.specs.Prelude.{◌≡◌};
ghost use Rattle.heavy_ffi.specs.Faults.{IsTold, cause_of, file_cause, key_cause, kind_of};
ghost use Rattle.heavy_ffi.specs.Faults.{merge_cause, no_fault, no_value, number_of, record_cause};

use hh_faults::{BadRecordCause, KeyCause, MergeCause, SavedFault, ToolError};

/// Why a call refused: which fault, its cause, and the number of the record, file or key, from 1
/// on, or how many keys are certain. A fault without a cause or a number has 0 there.
#[derive(Clone, Copy)]
#[repr(C)]
pub struct Fault {
    pub kind: u32,
    pub cause: u32,
    pub number: u64,
}

/// The kind of the fault of a handle that has no value.
const NO_VALUE: u32 = 28;

impl Fault {
    /// No fault.
    pub(crate) fn none() -> Fault
        ensures { result ≡ no_fault }
    {
        Fault {
            kind: 0,
            cause: 0,
            number: 0,
        }
    }

    /// The fault of a handle that has no value.
    pub(crate) fn no_value() -> Fault
        ensures { result ≡ no_value }
    {
        Fault {
            kind: NO_VALUE,
            cause: 0,
            number: 0,
        }
    }
}

fn record_cause(cause: BadRecordCause) -> u32
    ensures { result ≡ record_cause cause }
{
    match cause {
        BadRecordCause::FieldCount => 1,
        BadRecordCause::EmptyKey => 2,
        BadRecordCause::KeyTooLong => 3,
        BadRecordCause::BadWeight => 4,
        BadRecordCause::ZeroWeight => 5,
        BadRecordCause::TotalTooLarge => 6,
    }
}

fn file_cause(fault: SavedFault) -> u32
    ensures { result ≡ file_cause fault }
{
    match fault {
        SavedFault::Truncated => 1,
        SavedFault::BadMagic => 2,
        SavedFault::BadKind => 3,
        SavedFault::BadK => 4,
        SavedFault::BadCount => 5,
        SavedFault::BadKey => 6,
        SavedFault::KeyOrder => 7,
        SavedFault::BadCounter => 8,
        SavedFault::SumTooLarge => 9,
        SavedFault::BadWidth => 10,
        SavedFault::BadDepth => 11,
        SavedFault::BadCoefficient => 12,
        SavedFault::TotalTooLarge => 13,
        SavedFault::RowSum => 14,
        SavedFault::Trailing => 15,
        SavedFault::Memory => 16,
        SavedFault::Damaged => 17,
        SavedFault::BadDecimals => 18,
    }
}

fn merge_cause(cause: MergeCause) -> u32
    ensures { result ≡ merge_cause cause }
{
    match cause {
        MergeCause::DifferentK => 1,
        MergeCause::DifferentFamily => 2,
        MergeCause::DifferentWidth => 3,
        MergeCause::TotalTooLarge => 4,
    }
}

fn key_cause(cause: KeyCause) -> u32
    ensures { result ≡ key_cause cause }
{
    match cause {
        KeyCause::Empty => 1,
        KeyCause::TooLong => 2,
    }
}

fn kind_of(fault: &ToolError) -> u32
    ensures { result ≡ kind_of fault.now }
{
    match fault {
        ToolError::BadDepth => 1,
        ToolError::BadK => 2,
        ToolError::BadWorkers => 3,
        ToolError::BadWidth => 4,
        ToolError::BadPieces => 5,
        ToolError::BadTree(_) => 6,
        ToolError::BadMethod => 7,
        ToolError::ReadFault => 8,
        ToolError::BadRecord { .. } => 9,
        ToolError::BadFile { .. } => 10,
        ToolError::MixedKinds { .. } => 11,
        ToolError::CannotMerge { .. } => 12,
        ToolError::BadKey { .. } => 13,
        ToolError::NotCounters => 14,
        ToolError::TotalDiffers => 15,
        ToolError::WriteFault { .. } => 16,
        ToolError::FileFault { .. } => 17,
        ToolError::Memory => 18,
        ToolError::BadThreshold => 19,
        ToolError::BadDelimiter => 22,
        ToolError::BadColumn => 23,
        ToolError::NoColumn => 24,
        ToolError::WeightOutside => 25,
        ToolError::TopUncertain { .. } => 27,
        ToolError::ReportUncertain { .. } => 29,
    }
}

fn cause_of(fault: &ToolError) -> u32
    ensures { result ≡ cause_of fault.now }
{
    match *fault {
        ToolError::BadRecord { cause, .. } => record_cause(cause),
        ToolError::BadFile { fault, .. } => file_cause(fault),
        ToolError::CannotMerge { cause, .. } => merge_cause(cause),
        ToolError::BadKey { cause, .. } => key_cause(cause),
        _ => 0,
    }
}

fn number_of(fault: &ToolError) -> u64
    ensures { result ≡ number_of fault.now }
{
    match *fault {
        ToolError::BadRecord { number, .. }
        | ToolError::BadFile { number, .. }
        | ToolError::MixedKinds { number }
        | ToolError::CannotMerge { number, .. }
        | ToolError::BadKey { number, .. } => number,
        ToolError::TopUncertain { certain, .. } => certain,
        _ => 0,
    }
}

/// Tells a fault, and gives its status.
pub(crate) fn tell(refusal: &ToolError, fault: &mut Fault) -> u32
    ensures reported { IsTold result fault.new refusal.now }
{
    *fault = Fault {
        kind: kind_of(refusal),
        cause: cause_of(refusal),
        number: number_of(refusal),
    };
    u32::from(refusal.status())
}
