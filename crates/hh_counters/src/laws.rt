//! Laws of the definitions in `specs/`. Each function does nothing: its contract is the law.

ghost use Rattle.hh_counters.specs.Laws.{MisraGriesIsHonest, JoinOfHonestIsHonest, HeavyKeysHaveCounters, CountersBoundWeights, LevelIsLeast, SumIsByKey, JoinTakesTheLevel, ReportIsExact, ReportIsUnique, RowsAreExact, HonestIsNear, HonestInAnyOrder, HonestByWeights, CandidatesSuffice, CountsAddUp, CountsFollowItems, CountsStayWithin, RunSumsToTotal, RunBoundsWeights, TranslationIsMisraGries, StepsAreARun, RunsGoOn, RunsTakeTheStep, SummariesFollowItems, MonitorsFollowItems, FreeNameIsFirst, CondensedKeepsWeights, CondensedAreItems, CondensedAreFew, FoundByWeights, CondensedPartsSuffice, CondensedPartsReport, CondensedIsCounted};

/// The Misra-Gries counters of a list of items are honest for it (Misra and Gries 1982).
pub fn misra_gries_is_honest()
    ensures { MisraGriesIsHonest }
{}

/// Two honest summaries, joined, are honest for both lists together (Agarwal et al., PODS 2012).
pub fn join_of_honest_is_honest()
    ensures { JoinOfHonestIsHonest }
{}

/// Honest counters have a counter for each heavy key.
pub fn heavy_keys_have_counters()
    ensures { HeavyKeysHaveCounters }
{}

/// An honest counter is never above its key's weight, and at most the slack below it.
pub fn counters_bound_weights()
    ensures { CountersBoundWeights }
{}

/// Honest counters are within the total and near each weight. They are honest for any items of
/// which each key weighs the same, so also in whatever order the items come.
pub fn honest_is_near()
    ensures near { HonestIsNear }
    ensures order { HonestInAnyOrder }
    ensures weights { HonestByWeights }
{}

/// The level is the least number that at most k counters exceed.
pub fn level_is_least()
    ensures { LevelIsLeast }
{}

/// A sum of counters is key by key, and a join takes the level from it.
pub fn sum_is_by_key()
    ensures sum { SumIsByKey }
    ensures join { JoinTakesTheLevel }
{}

/// The report has exactly the heavy keys with their weights, in order, and no other list does. So
/// it is of the rows above a share, of any keys with numbers.
pub fn report_is_exact()
    ensures exact { ReportIsExact }
    ensures rows { RowsAreExact }
    ensures unique { ReportIsUnique }
{}

/// The keys of honest counters are candidates enough: counted over the whole stream and selected,
/// they are the report.
pub fn candidates_suffice()
    ensures { CandidatesSuffice }
{}

/// Candidates counted from 0 have their weights, and counting piece by piece is counting all.
pub fn counts_add_up()
    ensures { CountsAddUp }
{}

/// The count of some items and of more, one after the other, is the count of all.
pub fn counts_follow_items()
    ensures { CountsFollowItems }
{
    counts_add_up();
}

/// Counting keeps a number for each candidate, and no number grows by more than the items' total.
pub fn counts_stay_within()
    ensures { CountsStayWithin }
{}

/// The counters of any run of Space-Saving, whichever least keys were dropped, add up to the total,
/// and lie above their keys' weights by at most the least counter.
pub fn space_saving_bounds_weights()
    ensures total { RunSumsToTotal }
    ensures bounds { RunBoundsWeights }
{}

/// Any run of Space-Saving goes on by a step, whichever least keys were dropped before: by the
/// product's own, too.
pub fn runs_go_on()
    ensures by_any_step { RunsGoOn }
    ensures by_the_step { RunsTakeTheStep }
{}

/// Any run of Space-Saving, whichever least keys were dropped, translates to the Misra-Gries
/// counters (Agarwal et al., PODS 2012). The product's own steps make such a run.
pub fn translation_is_misra_gries()
    ensures translation { TranslationIsMisraGries }
    ensures steps { StepsAreARun }
{}

/// Adding an item takes the summary of a list, and the monitor of a list, to that of the longer
/// list; the translated monitor is the summary.
pub fn summaries_follow_items()
    ensures summaries { SummariesFollowItems }
    ensures monitors { MonitorsFollowItems }
{}

/// The name that stands for all keys without a counter is the first of `others`, `others1`,
/// `others2` and so on that has none.
pub fn free_name_is_first()
    ensures { FreeNameIsFirst }
{}

/// Condensed entries have the total of the items, and the weight of each key with a counter. They
/// are keys with weights where the items are, and at most one more than the counters.
pub fn condensed_keeps_weights()
    ensures weights { CondensedKeepsWeights }
    ensures items { CondensedAreItems }
    ensures few { CondensedAreFew }
{}

/// Condensed entries are what counting the keys of counters finds, and what it leaves of the total.
pub fn condensed_is_counted()
    ensures { CondensedIsCounted }
{}

/// Parts that are condensed one by one and joined in any order have the total of the whole and,
/// among the keys that have a counter, its heavy keys with their weights. If the counters are
/// honest for the whole, these are its report.
pub fn condensed_parts_suffice()
    ensures weights { FoundByWeights }
    ensures parts { CondensedPartsSuffice }
    ensures report { CondensedPartsReport }
{}
