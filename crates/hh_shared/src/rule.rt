//! What a seat stands for, the rule of the shared words, and what each step tells its seat.

use atomic_table::{Join, Play, Split, TableRule};
use std::collections::LinkedList;

/// What a seat stands for: the numbers that it claimed, those that it found claimed, and the cells
/// and amounts that it added. A step of the table sees no more than this and its word, so the
/// numbers of claims and of cells stand here too. It lives in proofs alone: no value of it is made.
pub struct Lists {
    pub counts: (u64, u64),
    pub claims: LinkedList<u64>,
    pub met: LinkedList<u64>,
    pub adds: LinkedList<(u64, u64)>,
}

/// The rule of a table whose first words are the claims' and whose other words are the cells'.
pub struct Tallied;

impl TableRule<u8, Lists, (usize, usize)> for Tallied {
    ghost use Rattle.hh_shared.specs.Rule.{IsTallied, newcomer};

    ghost holds = { λ counts state. IsTallied counts.0 counts.1 state.words state.views };

    ghost first = { newcomer };
}

/// A step on a claim's word.
pub struct Claim;

impl Play<u8, Lists> for Claim {
    ghost use Rattle.std.specs.Prelude.{◌≡◌};
    ghost use Rattle.hh_shared.specs.Rule.{Claims};

    ghost then = { λ step me found after. Claims me.0 step.word found after.0 × (after.1 ≡ me.1) };
}

/// A step on a cell's word.
pub struct Add;

impl Play<u8, Lists> for Add {
    ghost use Rattle.std.specs.Prelude.{◌≡◌};
    ghost use Rattle.hh_shared.specs.Rule.{Adds};

    ghost then = { λ step me found after.
        Adds me.0 step.word step.first after.0 × (after.1 ≡ me.1) };
}

/// A load that changes nothing and tells that the seat's claims are distinct.
pub struct Look;

impl Play<u8, Lists> for Look {
    ghost use Rattle.std.specs.Prelude.{◌≡◌};
    ghost use Rattle.hh_shared.specs.Rule.{Looks};

    ghost then = { λ step me found after. Looks me.0 after.0 × (after.1 ≡ me.1) };
}

/// A new seat with empty lists.
pub struct SplitOff;

impl Split<Lists> for SplitOff {
    ghost use Rattle.hh_shared.specs.Rule.{newcomer};

    ghost left = { λ lists. lists };

    ghost right = { λ lists. newcomer lists.counts };
}

/// The first seat gets the lists of both, and the other is left with empty lists.
pub struct TakeIn;

impl Join<Lists> for TakeIn {
    ghost use Rattle.hh_shared.specs.Rule.{both_lists, spent_seat};

    ghost both = { both_lists };

    ghost spent = { spent_seat };
}
