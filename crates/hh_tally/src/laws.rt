//! Laws of tallies. Each function does nothing: its contract is the law.

ghost use Rattle.hh_tally.specs.Laws.{BoundsFollow, BoundsMerge, NoLossIsExact, OrderIsFree};

/// What a tally says of the items that it took.
pub fn tallies_bound_weights()
    ensures follow { BoundsFollow }
    ensures merge { BoundsMerge }
    ensures order { OrderIsFree }
    ensures exact { NoLossIsExact }
{}
