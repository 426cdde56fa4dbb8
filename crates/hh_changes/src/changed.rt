//! The keys whose weights changed.

ghost use Rattle.std.specs.Prelude.{◌≡◌, ◌∷◌, ◌++◌, [], IfOk, OnOk};
ghost use Rattle.std.specs.List.Sorted.{IsStrictlySortedBy};
ghost use Rattle.std.specs.Map.{keys_of};
ghost use Rattle.hh_stream.specs.Weights.{key_cmp};
ghost use Rattle.hh_summaries.specs.Report.{rank_cmp};
ghost use Rattle.hh_changes.specs.Changes.{changes_in, keys_in, listed, sure};

use crate::sides::Sides;
use hh_stream::Key;
use hh_summaries::push_copy;
use std::alloc::{AllocError, Global};

/// How far a number that was within `old` and is within `new` changed at least.
fn sure(old: (u64, u64), new: (u64, u64)) -> u64
    ensures { result ≡ sure old new }
{
    let risen = new.0.saturating_sub(old.1);
    let fallen = old.0.saturating_sub(new.1);
    risen.max(fallen)
}

/// Puts a copy of `key` last, with how far its weight changed at least. If that is 0 it is left
/// out, unless `all` are wanted.
fn push_change(
    changes: &mut Vec<(Key, u64)>,
    sides: &Sides,
    all: bool,
    key: &Key,
) -> Result<(), AllocError>
    ensures { OnOk result (changes.new.items
        ≡ changes.old.items ++ listed all sides.now (key.now ∷ [])) }
{
    let (old, new) = sides.bounds(key);
    let sure = sure(old, new);
    if all || 0 < sure {
        push_copy(changes, key, sure)?;
    }
    Ok(())
}

/// Puts the keys of `entries` last, as [`push_change`] puts each.
fn push_keys(
    changes: &mut Vec<(Key, u64)>,
    sides: &Sides,
    all: bool,
    entries: &[(Key, u64)],
) -> Result<(), AllocError>
    ensures { OnOk result (changes.new.items
        ≡ changes.old.items ++ listed all sides.now (keys_of entries.now)) }
{
    for entry in entries {
        push_change(changes, sides, all, &entry.0)?;
    }
    Ok(())
}

/// Puts the keys with a counter in either summary into an empty list, in one pass over the two.
fn push_changes(changes: &mut Vec<(Key, u64)>, sides: &Sides, all: bool) -> Result<(), AllocError>
    requires { changes.old.items ≡ [] }
    ensures listed { OnOk result (changes.new.items ≡ listed all sides.now (keys_in sides.now)) }
    ensures rising { OnOk result (IsStrictlySortedBy key_cmp (keys_of changes.new.items)) }
{
    let left = sides.old().entries();
    let right = sides.newer().entries();
    let mut l = 0;
    let mut r = 0;
    while l < left.len() && r < right.len() {
        let a = &left[l];
        let b = &right[r];
        let order = a.0.cmp(&b.0);
        let key = if order.is_le() { &a.0 } else { &b.0 };
        push_change(changes, sides, all, key)?;
        l += usize::from(order.is_le());
        r += usize::from(order.is_ge());
    }
    push_keys(changes, sides, all, &left[l..])?;
    push_keys(changes, sides, all, &right[r..])
}

/// Gives the keys whose weight surely changed between the two streams of `sides`, each with how far
/// it changed at least, by falling distance and then by rising key. If `all` are wanted, these are
/// all keys with a counter in either summary, of which some may have changed by 0.
pub fn changes(alloc: Global, sides: &Sides, all: bool) -> Result<Vec<(Key, u64)>, AllocError>
    ensures changes { IfOk result (λ changes. changes.items ≡ changes_in all sides.now) }
    ensures ranked { IfOk result (λ changes. IsStrictlySortedBy rank_cmp changes.items) }
{
    let mut changes = Vec::new(alloc);
    push_changes(&mut changes, sides, all)?;
    changes.sort_unstable_by(|a, b| b.1.cmp(&a.1).then(a.0.cmp(&b.0)));
    Ok(changes)
}
