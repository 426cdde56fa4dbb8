//! What stops a command, with its text and its exit status.

ghost use Rattle.std.specs.Prelude.{◌≡◌};
ghost use Rattle.hh_faults.specs.Faults.{text_fault};
ghost use Rattle.hh_faults.specs.Status.{status_of};
ghost use Rattle.hh_faults.specs.declared.error.ToolError.TheVariants.{Memory, WriteFault as NotWritten};

use crate::records::{BadRecordCause, TextError};
use crate::saved::SavedFault;
use std::alloc::AllocError;
use thiserror::Error;

/// Why a plan's text is refused.
#[derive(Clone, Copy, Debug, PartialEq, Eq, Error)]
pub enum TreeFault {
    #[error("syntax at byte {0}")]
    Syntax(usize),
    #[error("no piece {0}")]
    UnknownPiece(usize),
    #[error("piece {0} twice")]
    RepeatedPiece(usize),
    #[error("piece {0} missing")]
    MissingPiece(usize),
}

/// Why a file is not merged into the files before it.
#[derive(Clone, Copy, Debug, PartialEq, Eq, Error)]
pub enum MergeCause {
    /// The summaries have different k.
    #[error("another k")]
    DifferentK,
    /// The tables have different hash families.
    #[error("another hash family")]
    DifferentFamily,
    /// The tables have different widths.
    #[error("another width")]
    DifferentWidth,
    /// The total would be above 2^63 - 1.
    #[error("total too large")]
    TotalTooLarge,
}

/// Why a word is no key.
#[derive(Clone, Copy, Debug, PartialEq, Eq, Error)]
pub enum KeyCause {
    /// It has no bytes.
    #[error("empty")]
    Empty,
    /// It has more than 4,096 bytes.
    #[error("too long")]
    TooLong,
}

/// A write that stopped: the sink took exactly this many bytes.
#[derive(Clone, Copy, Debug, PartialEq, Eq, Error)]
#[error("output could not be written")]
pub struct WriteFault {
    pub written: u64,
}

/// Two totals that were compared.
#[derive(Clone, Copy, Debug, PartialEq, Eq)]
pub struct Totals {
    /// The summary's.
    pub summary: u64,
    /// That of the records.
    pub records: u64,
}

/// What stops a command. Each command says in which order its refusals come. Records, files and
/// keys are numbered from 1.
#[derive(Clone, Copy, Debug, PartialEq, Eq, Error)]
pub enum ToolError {
    #[error("depth must be 1 to 16")]
    BadDepth,
    #[error("k must be 1 to 65535")]
    BadK,
    #[error("workers must be 1 to 64")]
    BadWorkers,
    #[error("width must be 1 to 65536")]
    BadWidth,
    #[error("pieces must be 1 to 1024")]
    BadPieces,
    #[error("tree: {0}")]
    BadTree(TreeFault),
    #[error("method must be mg or ss")]
    BadMethod,
    #[error("input could not be read")]
    ReadFault,
    #[error("record {number}: {cause}")]
    BadRecord { number: u64, cause: BadRecordCause },
    #[error("file {number}: {fault}")]
    BadFile { number: u64, fault: SavedFault },
    #[error("file {number}: another kind")]
    MixedKinds { number: u64 },
    #[error("file {number}: {cause}")]
    CannotMerge { number: u64, cause: MergeCause },
    #[error("key {number}: {cause}")]
    BadKey { number: u64, cause: KeyCause },
    #[error("file 1: not a counter summary")]
    NotCounters,
    #[error("file 1: its total is not the input's")]
    TotalDiffers,
    #[error("output could not be written")]
    WriteFault { written: u64 },
    #[error("file {number}: could not be read")]
    FileFault { number: u64 },
    #[error("out of memory")]
    Memory,
    #[error("threshold must be P/Q with 1 <= P <= Q <= 4294967296 and P*(K+1) >= Q")]
    BadThreshold,
    #[error("delimiter must be one byte or \\t, and no quote, CR or LF")]
    BadDelimiter,
    #[error("columns must be numbers from 1 on or, with --header, names")]
    BadColumn,
    #[error("the header has no such column")]
    NoColumn,
    #[error("file 1: a key's weight in the input is outside its bounds")]
    WeightOutside,
    /// Of the greatest keys only the first `certain` are known; each other weighs at most `most`.
    #[error("of the greatest keys only {certain} are certain")]
    TopUncertain { certain: u64, most: u64 },
    /// Of the heavy keys `certain` are known, with their weights, and `uncertain` more keys can be
    /// heavy.
    #[error("of the heavy keys only {certain} are certain")]
    ReportUncertain { certain: u64, uncertain: u64 },
}

impl ToolError {
    /// The exit status that tells the fault: 1 a device's fault, 2 usage, 3 refused input,
    /// 4 memory.
    pub fn status(&self) -> u8
        ensures { result ≡ status_of self.now }
    {
        match self {
            ToolError::ReadFault | ToolError::WriteFault { .. } | ToolError::FileFault { .. } => 1,
            ToolError::BadDepth
            | ToolError::BadK
            | ToolError::BadWorkers
            | ToolError::BadWidth
            | ToolError::BadPieces
            | ToolError::BadTree(_)
            | ToolError::BadMethod
            | ToolError::BadThreshold
            | ToolError::BadDelimiter
            | ToolError::BadColumn => 2,
            ToolError::BadRecord { .. }
            | ToolError::BadFile { .. }
            | ToolError::MixedKinds { .. }
            | ToolError::CannotMerge { .. }
            | ToolError::BadKey { .. }
            | ToolError::NotCounters
            | ToolError::TotalDiffers
            | ToolError::NoColumn
            | ToolError::WeightOutside
            | ToolError::TopUncertain { .. }
            | ToolError::ReportUncertain { .. } => 3,
            ToolError::Memory => 4,
        }
    }
}

impl From<AllocError> for ToolError {
    ghost from_gives = { λ _ fault. fault ≡ Memory };

    fn from(_: AllocError) -> ToolError {
        ToolError::Memory
    }
}

impl From<TextError> for ToolError {
    ghost from_gives = { λ error fault. fault ≡ text_fault error };

    fn from(error: TextError) -> ToolError {
        match error {
            TextError::ReadFault => ToolError::ReadFault,
            TextError::NoColumn => ToolError::NoColumn,
            TextError::BadRecord { number, cause } => ToolError::BadRecord { number, cause },
            TextError::Memory => ToolError::Memory,
        }
    }
}

impl From<WriteFault> for ToolError {
    ghost from_gives = { λ fault error. error ≡ NotWritten fault.written };

    fn from(fault: WriteFault) -> ToolError {
        ToolError::WriteFault {
            written: fault.written,
        }
    }
}
