//! Items in memory, condensed and confirmed by a saved summary.

ghost use Rattle.std.specs.Prelude.{◌≡◌, ◌*◌, ◌+◌, ◌≤◌, Ok, Some, true, IfOk, IfErr, IfSome};
ghost use Rattle.hh_summaries.specs.Counters.{max_k};
ghost use Rattle.hh_summaries.specs.Report.{IsShare};
ghost use Rattle.hh_stream.specs.Ranges.{in_range};
ghost use Rattle.hh_library.specs.CountItems.{condensed_in, condensed_items};
ghost use Rattle.hh_library.specs.CountItems.{confirmed_in, confirmed_items, share_or_least};
ghost use Rattle.hh_library.specs.Add.{entries};
ghost use Rattle.hh_commands.specs.Files.{Refuses, StopsAtHead};

use crate::commands::confirm::counted_text;
use crate::items::count_items;
use hh_commands::{condensed_counts, summary_in};
use hh_counters::{Candidates, Summary, is_threshold};
use hh_faults::ToolError;
use hh_rows::Output;
use hh_stream::KeyHash;
use std::alloc::Global;

/// [`condense_bytes`](crate::condense_bytes) of items in memory, each a key and its weight: records
/// with what the summary's keys weigh. So a second pass may go over a stream in parts, and
/// the condensed records of the parts, joined in any order, are confirmed as the stream is. Keys
/// are hashed by `hash`.
///
/// The file is tested first ([`ToolError::BadFile`], as file 1), then its kind
/// ([`ToolError::NotCounters`]), and then the items in order, numbered from 1
/// ([`ToolError::BadRecord`]): a key has 1 to 4,096 bytes, a weight is at least 1, and the total at
/// most 2^63 - 1.
pub fn condense_items(
    alloc: Global,
    file: &[u8],
    items: &[(&[u8], u64)],
    hash: KeyHash,
) -> Result<Vec<u8>, ToolError>
    ensures rows { IfOk result (λ rows.
        condensed_items file.now (entries items.now) ≡ Ok rows.items) }
    ensures refused { IfErr result (Refuses (condensed_items file.now (entries items.now))) }
    ensures early { StopsAtHead 1 file.now result }
{
    let summary = summary_in(alloc, file)?;
    condensed_items_text(alloc, &summary, items, hash)
}

/// The condensed rows of items by a summary.
fn condensed_items_text(
    alloc: Global,
    summary: &Summary,
    items: &[(&[u8], u64)],
    hash: KeyHash,
) -> Result<Vec<u8>, ToolError>
    ensures rows { IfOk result (λ rows.
        condensed_in summary.now (entries items.now) ≡ Ok rows.items) }
    ensures refused { IfErr result (Refuses (condensed_in summary.now (entries items.now))) }
{
    let candidates = Candidates::with_hasher(alloc, summary, hash)?;
    let counts = count_items(alloc, &candidates, items)?;
    Ok(condensed_counts(alloc, summary, &counts, &Output::plain(0))?)
}

/// The share above which keys are confirmed.
pub(crate) fn share_or_least(share: Option<(u64, u64)>, k: u64) -> Option<(u64, u64)>
    requires { in_range k max_k ≡ true }
    ensures share { result ≡ share_or_least share k }
    ensures is_share { IfSome result (λ t. IsShare t.0 t.1) }
    ensures enough { IfSome result (λ t. t.1 ≤ t.0 * (k + 1)) }
{
    match share {
        None => Some((1, k + 1)),
        Some((p, q)) => {
            if is_threshold(k, p, q) {
                Some((p, q))
            } else {
                None
            }
        }
    }
}

/// The rows of a summary's keys above a share of the total of items, where that is its own.
fn confirmed_items_text(
    alloc: Global,
    summary: &Summary,
    share: (u64, u64),
    items: &[(&[u8], u64)],
    hash: KeyHash,
) -> Result<Vec<u8>, ToolError>
    requires { IsShare share.0 share.1 }
    ensures rows { IfOk result (λ rows.
        confirmed_in summary.now (Some share) (entries items.now) ≡ Ok rows.items) }
    ensures refused { IfErr result (Refuses
        (confirmed_in summary.now (Some share) (entries items.now))) }
{
    let candidates = Candidates::with_hasher(alloc, summary, hash)?;
    let counts = count_items(alloc, &candidates, items)?;
    counted_text(alloc, summary, share, &counts)
}

/// Gives the rows of a saved summary's keys above a share of the total of items in memory, each a
/// key and its weight. They are those of the summary's stream, or of any stream that has its keys'
/// weights and its total. Without a share it is 1/(k + 1), the least for the summary's k. Keys are
/// hashed by `hash`.
///
/// The file is tested first ([`ToolError::BadFile`], as file 1), then its kind
/// ([`ToolError::NotCounters`]), then the share ([`ToolError::BadThreshold`]), then the items in
/// order as [`condense_items`] does, and then their total ([`ToolError::TotalDiffers`]).
pub fn confirm_items(
    alloc: Global,
    file: &[u8],
    share: Option<(u64, u64)>,
    items: &[(&[u8], u64)],
    hash: KeyHash,
) -> Result<Vec<u8>, ToolError>
    ensures rows { IfOk result (λ rows.
        confirmed_items share file.now (entries items.now) ≡ Ok rows.items) }
    ensures refused { IfErr result (Refuses
        (confirmed_items share file.now (entries items.now))) }
    ensures early { StopsAtHead 1 file.now result }
{
    let summary = summary_in(alloc, file)?;
    let Some(share) = share_or_least(share, summary.k()) else {
        return Err(ToolError::BadThreshold);
    };
    confirmed_items_text(alloc, &summary, share, items, hash)
}
