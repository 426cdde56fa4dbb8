//! A saved file among others, and the summary that it holds.

ghost use Rattle.std.specs.Prelude.{◌≡◌, Ok, IfOk, IfErr};
ghost use Rattle.hh_saved.specs.Spelling.{Spells};
ghost use Rattle.hh_saved.specs.declared.format.Version.{Version};
ghost use Rattle.hh_saved.specs.declared.saved.Saved.TheVariants.{Counters};
ghost use Rattle.hh_commands.specs.Files.{HoldsSummary, Refuses, StopsAtHead, SummaryRefused, file_fault, file_of};

use hh_counters::Summary;
use hh_faults::{SavedFault, ToolError};
use hh_saved::{Saved, read, write};
use std::alloc::Global;

/// The refusal that a fault of the file with this number is.
fn file_fault(number: u64, fault: SavedFault) -> ToolError
    ensures { result ≡ file_fault number fault }
{
    match fault {
        SavedFault::Memory => ToolError::Memory,
        fault => ToolError::BadFile { number, fault },
    }
}

/// The value of the file with this number.
pub fn file_of(alloc: Global, number: u64, bytes: &[u8]) -> Result<Saved, ToolError>
    ensures value { IfOk result (λ saved. file_of number bytes.now ≡ Ok saved) }
    ensures refused { IfErr result (λ fault. Refuses (file_of number bytes.now) fault) }
    ensures early { StopsAtHead number bytes.now result }
{
    match read(alloc, bytes) {
        Ok(saved) => Ok(saved),
        Err(fault) => Err(file_fault(number, fault)),
    }
}

/// The summary that a file holds.
pub fn summary_in(alloc: Global, file: &[u8]) -> Result<Summary, ToolError>
    ensures summary { IfOk result (HoldsSummary file.now) }
    ensures spelled { IfOk result (λ summary.
        (version : Version) × Spells version file.now (Counters summary)) }
    ensures refused { IfErr result (λ fault. SummaryRefused file.now fault) }
    ensures early { StopsAtHead 1 file.now result }
{
    match read(alloc, file) {
        Ok(Saved::Counters(summary)) => Ok(summary),
        Ok(Saved::Cells(_)) => Err(ToolError::NotCounters),
        Err(fault) => Err(file_fault(1, fault)),
    }
}

/// The saved file of a value, which is dropped.
pub(crate) fn written(alloc: Global, saved: Saved) -> Result<Vec<u8>, ToolError>
    ensures spelled { IfOk result (λ bytes. Spells Version.Two bytes.items saved) }
    ensures refused { IfErr result (λ fault. fault ≡ ToolError.Memory) }
{
    Ok(write(alloc, &saved)?)
}
