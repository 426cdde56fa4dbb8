//! The entries of a saved summary.

ghost use Rattle.std.specs.Prelude.{IfOk, IfErr};
ghost use Rattle.hh_library.specs.Entries.{ListsEntries};
ghost use Rattle.hh_commands.specs.Files.{StopsAtHead, SummaryRefused};

use hh_commands::summary_in;
use hh_faults::ToolError;
use hh_saved::{Place, places};
use std::alloc::Global;

/// Where the entries of a saved summary lie in its file, by rising key.
///
/// Other files are refused, as file 1 ([`ToolError::BadFile`]), and then those of another kind
/// ([`ToolError::NotCounters`]).
pub fn list_entries(alloc: Global, file: &[u8]) -> Result<Vec<Place>, ToolError>
    ensures entries { IfOk result (λ places. ListsEntries file.now places.items) }
    ensures refused { IfErr result (λ fault. SummaryRefused file.now fault) }
    ensures early { StopsAtHead 1 file.now result }
{
    let summary = summary_in(alloc, file)?;
    Ok(places(alloc, file, &summary)?)
}
