//! Laws of the definitions in `specs/`. Each function does nothing: its contract is the law.

ghost use Rattle.hh_pool.specs.Laws.{PartsReportByAnyTree, TextsSpellOneTree, TreesAreHonest};
ghost use Rattle.hh_pool.specs.Laws.{TreesMergeSummaries};

use hh_counters::laws::{
    condensed_parts_suffice, honest_is_near, join_of_honest_is_honest, misra_gries_is_honest,
};

/// Whatever the tree, honest counters of the parts make honest counters of the whole (Agarwal et
/// al., Mergeable Summaries, PODS 2012).
pub fn trees_are_honest()
    ensures { TreesAreHonest }
{
    join_of_honest_is_honest();
}

/// Whatever the tree, where no merge of the parts' summaries is refused it makes the summary of the
/// whole: of its total, with the tree's counters, and honest.
pub fn trees_merge_summaries()
    ensures { TreesMergeSummaries }
{
    join_of_honest_is_honest();
    misra_gries_is_honest();
}

/// Where each part is summarised by itself and the summaries are merged by any tree, the parts that
/// are condensed by the merged counters have the report of the whole.
pub fn parts_report_by_any_tree()
    ensures { PartsReportByAnyTree }
{
    trees_are_honest();
    misra_gries_is_honest();
    honest_is_near();
    condensed_parts_suffice();
}

/// A plan's text is that of one tree.
pub fn texts_spell_one_tree()
    ensures { TextsSpellOneTree }
{}
