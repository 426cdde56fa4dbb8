//! Work on lists of keys with counters, by rising key.

ghost use Rattle.std.specs.Prelude.{◌≡◌, ◌+◌, ◌<◌, ◌≤◌, ◌^◌, ◌↔◌, [], ◌∷◌, ◌++◌, OnOk, OnErr, IsOk, IsTrue, IfOk, IfErr, length, HoldsAt};
ghost use Rattle.std.specs.List.{AllByRecursion, AllWithin, IsDistinct, insert};
ghost use Rattle.std.specs.List.Sorted.{IsStrictlySortedBy};
ghost use Rattle.std.specs.Map.{keys_of, values_of};
ghost use Rattle.std.specs.declared.cmp.Ordering.TheVariants.{Less, Equal, Greater};
ghost use Rattle.hh_stream.specs.Weights.{Bytes, Entry, key_cmp, max_key_len, same_key, weight_of, total_of};
ghost use Rattle.hh_summaries.specs.Counters.{Counters, IsCounters, lower, level, least_counter as least_counter_of, add_at, cut as cut_counters, plus, join, tally};
ghost use Rattle.hh_summaries.specs.Report.{by_rank};

use hh_stream::Key;
use std::alloc::{AllocError, Global};
use std::cmp::Ordering;

/// Where the key is, or where it would go.
pub fn place_of(entries: &[(Key, u64)], key: &[u8]) -> Result<usize, usize>
    requires { IsStrictlySortedBy key_cmp (keys_of entries.now) }
    ensures found { IfOk result
        (λ i. i < length entries.now × HoldsAt (λ (e : Entry). e.0 ≡ key.now) entries.now i) }
    ensures absent { IfErr result
        (λ i. i ≤ length entries.now
        × AllWithin (λ (e : Entry). key_cmp e.0 key.now ≡ Less) entries.now 0 i
        × AllWithin (λ (e : Entry). key_cmp key.now e.0 ≡ Less) entries.now i
        (length entries.now)) }
{
    entries.binary_search_by(|e| e.0.bytes().cmp(key))
}

/// The counter of the key, 0 where there is none.
pub fn counter_of(entries: &[(Key, u64)], key: &[u8]) -> u64
    requires { IsStrictlySortedBy key_cmp (keys_of entries.now) }
    ensures { result ≡ weight_of key.now entries.now }
{
    match place_of(entries, key) {
        Ok(place) => entries[place].1,
        Err(_) => 0,
    }
}

/// The sum of the counters.
pub fn sum_of(entries: &[(Key, u64)]) -> u64
    requires { total_of entries.now < 2 ^ 64 }
    ensures { result ≡ total_of entries.now }
{
    let mut sum = 0;
    for entry in entries {
        sum += entry.1;
    }
    sum
}

/// Takes t from each counter, and drops those that are not above it.
pub fn lower_all(entries: &mut Vec<(Key, u64)>, t: u64)
    ensures { entries.new.items ≡ lower t entries.old.items }
{
    entries.retain_mut(|entry| {
        let is_above = entry.1 > t;
        entry.1 = entry.1.saturating_sub(t);
        is_above
    });
}

/// Sorts entries with distinct keys and counters above 0 by rising key.
pub fn sort_by_key(entries: &mut Vec<(Key, u64)>)
    requires distinct { IsDistinct same_key (keys_of entries.old.items) }
    requires positive { AllByRecursion (λ (e : Entry). 0 < e.1) entries.old.items }
    ensures sorted { entries.new.items ≡ tally entries.old.items }
    ensures count { length entries.new.items ≡ length entries.old.items }
{
    entries.sort_unstable_by(|a, b| a.0.cmp(&b.0));
}

/// Whether the keys rise and each counter is at least 1.
pub fn are_counters(entries: &[(Key, u64)]) -> bool
    ensures { IsTrue result ↔ IsCounters entries.now }
{
    for i in 0..entries.len() {
        if entries[i].1 == 0 {
            return false;
        }
        if 0 < i && entries[i - 1].0 >= entries[i].0 {
            return false;
        }
    }
    true
}

/// Whether the counters add up to at most this.
pub fn sums_within(entries: &[(Key, u64)], total: u64) -> bool
    requires { total < 2 ^ 63 }
    ensures { IsTrue result ↔ (total_of entries.now ≤ total) }
{
    let mut left = total;
    for entry in entries {
        if left < entry.1 {
            return false;
        }
        left -= entry.1;
    }
    true
}

/// The least counter, 0 where there is none.
pub fn least_counter(entries: &[(Key, u64)]) -> u64
    ensures { result ≡ least_counter_of entries.now }
{
    match entries.split_first() {
        Some((first, others)) => least_with(first.1, others),
        None => 0,
    }
}

// The least of this number and the counters.
fn least_with(number: u64, entries: &[(Key, u64)]) -> u64
    ensures { (key : Bytes) → result ≡ least_counter_of ((key, number) ∷ entries.now) }
{
    let mut least = number;
    for entry in entries {
        least = least.min(entry.1);
    }
    least
}

/// The level of the counters with these numbers: the least number that at most `k` of them exceed.
/// It is found by a selection, which reorders the numbers.
pub fn level_of(numbers: &mut [u64], k: usize) -> u64
    ensures { (counters : Counters) → values_of counters ≡ numbers.old
        → result ≡ level counters k }
{
    let len = numbers.len();
    if len <= k {
        return 0;
    }
    let (_, level, _) = numbers.select_nth_unstable(len - k - 1);
    *level
}

/// Takes the level from each counter, so that at most `k` are left.
pub fn cut(alloc: Global, entries: &mut Vec<(Key, u64)>, k: usize) -> Result<(), AllocError>
    requires { IsCounters entries.old.items }
    ensures lowered { OnOk result (entries.new.items ≡ cut_counters entries.old.items k) }

    // where all may stay, nothing takes memory
    ensures few { length entries.old.items ≤ k → IsOk result }
{
    if entries.len() <= k {
        return Ok(());
    }
    let mut numbers: Vec<u64> = entries.iter().map(|e| e.1).collect(alloc)?;
    let level = level_of(&mut numbers, k);
    lower_all(entries, level);
    Ok(())
}

/// Adds to the key's counter, which is 0 where there is none.
pub fn add_entry(entries: &mut Vec<(Key, u64)>, key: &[u8], weight: u64) -> Result<(), AllocError>
    requires key { (0 < length key.now) × (length key.now ≤ max_key_len) }
    requires counters { IsCounters entries.old.items }
    requires positive { 0 < weight }
    requires bounded { total_of entries.old.items + weight < 2 ^ 64 }
    ensures ok { OnOk result (entries.new.items ≡ add_at entries.old.items (key.now, weight)) }
    ensures err { OnErr result (entries.new.items ≡ entries.old.items) }

    // a key that is there takes no memory
    ensures known { 0 < weight_of key.now entries.old.items → IsOk result }
{
    match place_of(entries, key) {
        Ok(place) => {
            entries[place].1 += weight;
            Ok(())
        }
        Err(place) => insert_entry(entries, place, key, weight),
    }
}

// Puts the key with its number at the place.
fn insert_entry(
    entries: &mut Vec<(Key, u64)>,
    place: usize,
    key: &[u8],
    number: u64,
) -> Result<(), AllocError>
    requires key { (0 < length key.now) × (length key.now ≤ max_key_len) }
    requires place { place ≤ length entries.old.items }
    ensures ok { OnOk result
        (entries.new.items ≡ insert entries.old.items place (key.now, number)) }
    ensures err { OnErr result (entries.new.items ≡ entries.old.items) }
{
    let key = Key::of_bytes(*entries.allocator(), key)?;
    Ok(entries.insert(place, (key, number))?)
}

/// Adds an item: its key's counter grows by the weight, and where more than k keys then have
/// counters, the least is taken from each. After an `Err` the entries are as they were.
pub fn add_item(
    entries: &mut Vec<(Key, u64)>,
    key: &[u8],
    weight: u64,
    k: u64,
) -> Result<(), AllocError>
    requires key { (0 < length key.now) × (length key.now ≤ max_key_len) }
    requires counters { IsCounters entries.old.items }
    requires few { length entries.old.items ≤ k }
    requires positive { 0 < weight }
    requires bounded { total_of entries.old.items + weight < 2 ^ 63 }
    ensures joined { OnOk result
        (entries.new.items ≡ join entries.old.items ((key.now, weight) ∷ []) k) }
    ensures unchanged { OnErr result (entries.new.items ≡ entries.old.items) }

    // nothing grows where the key is there, or all are full and none is below the weight
    ensures known { 0 < weight_of key.now entries.old.items → IsOk result }
    ensures least { length entries.old.items ≡ k
        → weight ≤ least_counter_of entries.old.items → IsOk result }
{
    let place = match place_of(entries, key) {
        Ok(place) => {
            entries[place].1 += weight;
            return Ok(());
        }
        Err(place) => place,
    };
    if (entries.len() as u64) < k {
        return insert_entry(entries, place, key, weight);
    }
    let level = least_with(weight, entries);
    // a newcomer with the least number gets no counter
    if level < weight {
        insert_entry(entries, place, key, weight)?;
    }
    lower_all(entries, level);
    Ok(())
}

/// The counters of both joined: added key by key, less the level.
pub fn join(
    alloc: Global,
    left: &[(Key, u64)],
    right: &[(Key, u64)],
    k: u64,
) -> Result<Vec<(Key, u64)>, AllocError>
    requires left { IsCounters left.now }
    requires right { IsCounters right.now }
    requires bounded { total_of left.now + total_of right.now < 2 ^ 63 }
    ensures joined { IfOk result (λ all. all.items ≡ join left.now right.now k) }

    // no counters take no memory
    ensures none { left.now ≡ [] → right.now ≡ [] → IsOk result }
{
    let mut all = Vec::with_capacity(alloc, left.len() + right.len())?;
    push_sums(&mut all, left, right)?;
    cut(alloc, &mut all, k as usize)?;
    Ok(all)
}

// Puts the counters of both added, key by key, into an empty list, in one pass over the two.
fn push_sums(
    all: &mut Vec<(Key, u64)>,
    left: &[(Key, u64)],
    right: &[(Key, u64)],
) -> Result<(), AllocError>
    requires empty { all.old.items ≡ [] }
    requires left { IsCounters left.now }
    requires right { IsCounters right.now }
    requires bounded { total_of left.now + total_of right.now < 2 ^ 63 }
    ensures summed { OnOk result (all.new.items ≡ plus left.now right.now) }
    ensures none { left.now ≡ [] → right.now ≡ [] → IsOk result }
{
    let mut l = 0;
    let mut r = 0;
    while l < left.len() && r < right.len() {
        let a = &left[l];
        let b = &right[r];
        let order = a.0.cmp(&b.0);
        let (key, number) = match order {
            Ordering::Less => (&a.0, a.1),
            Ordering::Equal => (&a.0, a.1 + b.1),
            Ordering::Greater => (&b.0, b.1),
        };
        push_copy(all, key, number)?;
        l += usize::from(order.is_le());
        r += usize::from(order.is_ge());
    }
    push_copies(all, &left[l..])?;
    push_copies(all, &right[r..])
}

/// Puts a copy of the key last, with the number. After an `Err` the entries are as they were.
pub fn push_copy(entries: &mut Vec<(Key, u64)>, key: &Key, number: u64) -> Result<(), AllocError>
    ensures pushed { OnOk result
        (entries.new.items ≡ entries.old.items ++ (key.now, number) ∷ []) }
    ensures unchanged { OnErr result (entries.new.items ≡ entries.old.items) }
{
    entries.push((key.copy()?, number))?;
    Ok(())
}

/// Copies of the entries, by falling number and then by rising key. They are sorted in place.
pub fn ranked(alloc: Global, entries: &[(Key, u64)]) -> Result<Vec<(Key, u64)>, AllocError>
    requires { IsStrictlySortedBy key_cmp (keys_of entries.now) }
    ensures ranked { IfOk result (λ ranked. ranked.items ≡ by_rank entries.now) }
    ensures sum { IfOk result (λ ranked. total_of ranked.items ≡ total_of entries.now) }

    // no entries take no memory
    ensures none { entries.now ≡ [] → IsOk result }
{
    let mut ranked = Vec::new(alloc);
    push_copies(&mut ranked, entries)?;
    ranked.sort_unstable_by(|a, b| b.1.cmp(&a.1).then(a.0.cmp(&b.0)));
    Ok(ranked)
}

// Puts copies of the entries last.
fn push_copies(entries: &mut Vec<(Key, u64)>, others: &[(Key, u64)]) -> Result<(), AllocError>
    ensures pushed { OnOk result (entries.new.items ≡ entries.old.items ++ others.now) }
    ensures none { others.now ≡ [] → IsOk result }
{
    for other in others {
        push_copy(entries, &other.0, other.1)?;
    }
    Ok(())
}
