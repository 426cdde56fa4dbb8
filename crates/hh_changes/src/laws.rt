//! Laws of the definitions in `specs/`. Each function does nothing: its contract is the law.

ghost use Rattle.hh_changes.specs.Laws.{ChangesAreExact, ChangesAreWithin};
ghost use Rattle.hh_changes.specs.Laws.{SharesAreRoundedOutward, SureChangesAreListed};

use hh_counters::laws::counters_bound_weights;

/// For all streams of which two summaries are honest, the change of each key's weight is within its
/// bounds.
pub fn changes_are_within()
    ensures { ChangesAreWithin }
{
    counters_bound_weights();
}

/// Each key whose weight surely changed is listed. Those that are listed have a counter in either
/// summary, and each such key is if all are wanted.
pub fn changes_are_exact()
    ensures exact { ChangesAreExact }
    ensures sure { SureChangesAreListed }
{}

/// Bounds of the change of a share are rounded outward.
pub fn shares_are_rounded_outward()
    ensures { SharesAreRoundedOutward }
{}
