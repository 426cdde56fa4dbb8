//! The rows of a report, and their choice among candidates.

ghost use Rattle.std.specs.Prelude.{◌≡◌, ◌*◌, ◌∷◌, ◌++◌, nat_lt, true, [], IsOk, IfOk, OnOk, filter, length, zip};
ghost use Rattle.std.specs.List.Sorted.{IsStrictlySortedBy};
ghost use Rattle.hh_stream.specs.Ranges.{in_range};
ghost use Rattle.hh_stream.specs.Weights.{key_cmp};
ghost use Rattle.hh_summaries.specs.Counters.{max_k};
ghost use Rattle.hh_summaries.specs.Report.{is_heavy, is_threshold, rows_above};

use hh_stream::Key;
use std::alloc::{AllocError, Global};
use std::marker::Model;

/// The largest q of a share p/q.
pub const MAX_Q: u64 = 4_294_967_296;

/// A row of a report: a key with its weight in the stream. A contract sees the pair.
#[derive(Debug, Drop)]
pub struct Heavy {
    pub key: Key,
    pub weight: u64,
}

impl Model for Heavy {
    ghost use Rattle.hh_stream.specs.Weights.{Entry};

    ghost Value = { Entry };

    ghost view = { λ a. (a.key, a.weight) };
}

/// The keys whose number is more than p/q of the total, each with its number, by falling number and
/// then by rising key. They are sorted in place, with no memory beside the rows.
pub fn selected_rows(
    alloc: Global,
    keys: &[Key],
    numbers: &[u64],
    p: u64,
    q: u64,
    total: u64,
) -> Result<Vec<Heavy>, AllocError>
    requires rising { IsStrictlySortedBy key_cmp keys.now }
    requires lengths { length numbers.now ≡ length keys.now }
    ensures rows { IfOk result (λ rows.
        rows.items ≡ rows_above p q total (zip keys.now numbers.now)) }
    ensures none { rows_above p q total (zip keys.now numbers.now) ≡ [] → IsOk result }
{
    let mut rows = heavy_rows(alloc, keys, numbers, p, q, total)?;
    rows.sort_unstable_by(|a, b| b.weight.cmp(&a.weight).then(a.key.cmp(&b.key)));
    Ok(rows)
}

/// The keys whose number is more than p/q of the total, each with its number, by rising key.
pub(crate) fn heavy_rows(
    alloc: Global,
    keys: &[Key],
    numbers: &[u64],
    p: u64,
    q: u64,
    total: u64,
) -> Result<Vec<Heavy>, AllocError>
    requires { length numbers.now ≡ length keys.now }
    ensures rows { IfOk result
        (λ rows. rows.items ≡ filter (is_heavy p q total) (zip keys.now numbers.now)) }
    ensures none { filter (is_heavy p q total) (zip keys.now numbers.now) ≡ [] → IsOk result }
{
    let mut rows = Vec::new(alloc);
    for i in 0..keys.len() {
        if is_heavy(numbers[i], p, q, total) {
            push_row(&mut rows, &keys[i], numbers[i])?;
        }
    }
    Ok(rows)
}

// Puts a row with a copy of the key last.
fn push_row(rows: &mut Vec<Heavy>, key: &Key, weight: u64) -> Result<(), AllocError>
    ensures { OnOk result (rows.new.items ≡ rows.old.items ++ (key.now, weight) ∷ []) }
{
    let key = key.copy()?;
    rows.push(Heavy { key, weight })?;
    Ok(())
}

/// Whether the number is more than p/q of the total.
pub fn is_heavy(number: u64, p: u64, q: u64, total: u64) -> bool
    ensures { result ≡ nat_lt (p * total) (q * number) }
{
    u128::from(p) * u128::from(total) < u128::from(q) * u128::from(number)
}

/// Whether p/q is a share of at least 1/(k + 1), with 1 <= p <= q <= [`MAX_Q`].
pub fn is_threshold(k: u64, p: u64, q: u64) -> bool
    requires { in_range k max_k ≡ true }
    ensures { result ≡ is_threshold k p q }
{
    1 <= p && p <= q && q <= MAX_Q && q <= p * (k + 1)
}
