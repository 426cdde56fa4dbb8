//! Laws of the definitions in `specs/`. Each function does nothing: its contract is the law.

ghost use Rattle.heavy.specs.Laws.{CondensedPartsConfirm, HeldTreesKeepBounds, HeldTreesReport, HonestKeepsBounds, HonestSummaryReports, MachinesReport, MergesHoldTrees, PartsHoldPieces, PartsKeepBounds};

use hh_counters::laws::{condensed_keeps_weights, condensed_parts_suffice, counters_bound_weights};
use hh_pool::laws::{parts_report_by_any_tree, trees_merge_summaries};
pub use hh_records::laws::texts_are_items;
pub use hh_rows::laws::condensed_files_are_read;
use hh_saved::laws::spellings_are_read;

/// Over several machines: each part is condensed where it lies, and the condensed parts, joined in
/// any order and confirmed by the merged summary, give the exact report of all records.
pub fn machines_report()
    ensures parts { CondensedPartsConfirm }
    ensures honest { HonestSummaryReports }
    ensures trees { MachinesReport }
{
    condensed_parts_suffice();
    parts_report_by_any_tree();
}

/// Saved files, up any tree of merges, at once or one by one: each holds what its tree makes of the
/// parts' summaries. So by the last one the condensed parts give the exact report of all records.
pub fn merged_files_report()
    ensures parts { PartsHoldPieces }
    ensures merges { MergesHoldTrees }
    ensures report { HeldTreesReport }
{
    spellings_are_read();
    trees_merge_summaries();
    parts_report_by_any_tree();
    condensed_parts_suffice();
}

/// The records of a summary, or of those that were merged into it, contradict it nowhere: no key of
/// it is outside its bounds in all of them, in any order, nor in their condensed parts, and none is
/// above the higher bound in a part.
pub fn records_keep_bounds()
    ensures records { HonestKeepsBounds }
    ensures parts { PartsKeepBounds }
    ensures files { HeldTreesKeepBounds }
{
    counters_bound_weights();
    condensed_keeps_weights();
    trees_merge_summaries();
}
