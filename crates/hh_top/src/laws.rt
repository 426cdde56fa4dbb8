//! Laws of the greatest keys. Each function does nothing: its contract is the law.

ghost use Rattle.hh_top.specs.Laws.{ManyAreAll, OnlyOneTop, ReportsAreTops, TopIsExact};

/// The n greatest keys are in order, each with its weight, and no key that is left out comes before
/// one of them. No other list is so.
pub fn top_is_exact()
    ensures exact { TopIsExact }
    ensures only { OnlyOneTop }
{}

/// The keys of a report, above any share, are the first of the greatest keys.
pub fn reports_are_tops()
    ensures { ReportsAreTops }
{}

/// As many of the greatest keys as there are keys are all keys.
pub fn many_are_all()
    ensures { ManyAreAll }
{}
