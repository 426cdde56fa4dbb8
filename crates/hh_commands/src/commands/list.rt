//! The keys of a saved summary, with what it tells of each.

ghost use Rattle.std.specs.Prelude.{◌≡◌, ◌≤◌, IfOk, IfErr};
ghost use Rattle.hh_stream.specs.Weights.{total_of};
ghost use Rattle.hh_commands.specs.Files.{StopsAtHead, SummaryRefused};
ghost use Rattle.hh_commands.specs.List.{ListsIn, entry_rows};

use crate::commands::ask::{BOUNDS, push_bounds};
use crate::files::summary_in;
use hh_counters::Summary;
use hh_faults::ToolError;
use hh_rows::{Output, RowWriter};
use hh_stream::Key;
use std::alloc::{AllocError, Global};

/// The rows of these keys with their counters.
fn entries_text(
    alloc: Global,
    summary: &Summary,
    entries: &[(Key, u64)],
    output: &Output,
) -> Result<Vec<u8>, AllocError>
    requires { total_of entries.now ≤ total_of summary.now.counters }
    ensures { IfOk result (λ text. text.items ≡ entry_rows output.now summary.now entries.now) }
{
    let slack = summary.slack();
    prove!(summary.sum() <= summary.total());
    let mut rows = RowWriter::new(alloc, output, BOUNDS)?;
    for (key, counter) in entries {
        let bounds = (*counter, *counter + slack);
        push_bounds(alloc, &mut rows, key, bounds, output.decimals)?;
    }
    rows.into_text()
}

/// What a saved summary tells of all its keys: for each key with a counter a row `key,low,high`,
/// with the numbers of [`ask_rows`](crate::ask_rows), by falling `low` and then by rising key. A
/// key that isn't listed weighs at most the summary's slack.
///
/// Other files are refused, as file 1 ([`ToolError::BadFile`]), and then those of another kind
/// ([`ToolError::NotCounters`]).
pub fn list_rows(alloc: Global, file: &[u8], output: &Output) -> Result<Vec<u8>, ToolError>
    ensures rows { IfOk result (λ rows. ListsIn output.now file.now rows.items) }
    ensures refused { IfErr result (λ fault. SummaryRefused file.now fault) }
    ensures early { StopsAtHead 1 file.now result }
{
    let summary = summary_in(alloc, file)?;
    let ranked = summary.ranked()?;
    Ok(entries_text(alloc, &summary, &ranked, output)?)
}
