//! Counters in an index, raised and lowered.

ghost use Rattle.std.specs.Prelude.{◌≡◌, ℕ, Bool, get_or, map, ◌+◌, ◌-◌, ◌*◌, ◌<◌, ◌≤◌, ◌^◌, ◌/◌, ◌&&◌, ◌||◌, cond, ◌++◌, ◌∷◌, [], fold, filter, length, max, nat_lt, false, IfOk, OnOk, OnErr, IsTrue};
ghost use Rattle.std.specs.List.{IsDistinct};
ghost use Rattle.std.specs.Map.{keys_of};
ghost use Rattle.indexmap.specs.IndexMap.{with_value_at};
ghost use Rattle.hh_stream.specs.Weights.{Bytes, max_key_len, same_key, total_of};
ghost use Rattle.hh_summaries.specs.Counters.{exceeds, level, lower, over, tally};
ghost use Rattle.hh_tally.specs.Tallies.{AreFlags, filled, add_in, bytes_of, loss_of, left_of, most_left, are_large, is_over};

use crate::room::Room;
use hh_stream::{BorrowedKey, Key, KeyHash};
use hh_summaries::{level_of, push_copy, sort_by_key};
use indexmap::IndexMap;
use std::alloc::{AllocError, Global};

/// Adds `weight` to the counter of `key`, or puts the key last with this counter, and gives whether
/// the key is new. The error is that memory ran out; then `index` is as it was.
pub fn add_entry(
    alloc: Global,
    index: &mut IndexMap<Key, u64, KeyHash>,
    key: &[u8],
    weight: u64,
) -> Result<bool, AllocError>
    requires key { (0 < length key.now) × (length key.now ≤ max_key_len) }
    requires bounded { total_of index.old.entries + weight < 2 ^ 64 }
    ensures added { OnOk result
        (index.new.entries ≡ add_in index.old.entries (key.now, weight)) }
    ensures new { IfOk result (λ new. IsTrue new
        → index.new.entries ≡ index.old.entries ++ (key.now, weight) ∷ []) }
    ensures known { IfOk result (λ new. new ≡ false
        → keys_of index.new.entries ≡ keys_of index.old.entries) }
    ensures unchanged { OnErr result (index.new.entries ≡ index.old.entries) }
{
    if let Some((place, _, counter)) = index.get_full(BorrowedKey(key)) {
        let raised = *counter + weight;
        set_counter(index, place, raised);
        return Ok(false);
    }
    index.insert(Key::of_bytes(alloc, key)?, weight)?;
    Ok(true)
}

// Makes `to` the counter of the key at `place`.
fn set_counter(index: &mut IndexMap<Key, u64, KeyHash>, place: usize, to: u64)
    requires { place < length index.old.entries }
    ensures { index.new ≡ with_value_at index.old place to }
{
    let (_, counter) = index.pair_mut(place);
    *counter = to;
}

/// Adds each counter of `others`.
pub fn add_all(
    alloc: Global,
    index: &mut IndexMap<Key, u64, KeyHash>,
    others: &IndexMap<Key, u64, KeyHash>,
) -> Result<(), AllocError>
    requires { total_of index.old.entries + total_of others.now.entries < 2 ^ 64 }
    ensures all { OnOk result
        (index.new.entries ≡ fold add_in index.old.entries others.now.entries) }
    ensures few { OnOk result
        (length index.new.entries ≤ length index.old.entries + length others.now.entries) }
{
    for i in 0..others.len() {
        if let Some((key, counter)) = others.get_index(i) {
            add_entry(alloc, index, key.bytes(), *counter)?;
        }
    }
    Ok(())
}

/// Lowers all counters if there are more keys than `room` has, or too many bytes of keys, which
/// together have `bytes`. It gives what was taken from each counter, 0 if there is room, and how
/// many bytes the keys that are left have. `sure` are flags of the first keys, and `rest` is that
/// of the others; the keys that are left keep theirs. After an error `index` and `sure` are as they
/// were.
pub fn lower_if_over(
    alloc: Global,
    index: &mut IndexMap<Key, u64, KeyHash>,
    sure: &mut Vec<bool>,
    rest: bool,
    room: &Room,
    bytes: usize,
) -> Result<(u64, usize), AllocError>
    requires bytes { bytes ≡ bytes_of (keys_of index.old.entries) }
    requires bounded { bytes ≤ 4096 * length index.old.entries }
    requires few { length index.old.entries < 2 ^ 33 }
    ensures lost { IfOk result (λ r. r.0 ≡ loss_of room.now index.old.entries) }
    ensures left { OnOk result (index.new.entries ≡ left_of room.now index.old.entries) }
    ensures bytes { IfOk result (λ r. r.1 ≡ bytes_of (keys_of index.new.entries)) }
    ensures bounded { IfOk result (λ r. r.1 ≤ 4096 * length index.new.entries) }
    ensures flags { let keys = keys_of index.new.entries in IfOk result (λ r. (test : Bytes → Bool)
        → AreFlags sure.old.items rest (keys_of index.old.entries) test
        → (later : Bool) → (r.0 ≡ 0 → later ≡ rest) → AreFlags sure.new.items later keys test) }
    ensures few_flags { OnOk result (length sure.old.items ≤ length index.old.entries
        → length sure.new.items ≤ length index.new.entries) }
    ensures unchanged { OnErr result (index.new.entries ≡ index.old.entries) }
    ensures same_flags { OnErr result (sure.new.items ≡ sure.old.items) }
{
    let large = are_large(room, index, bytes);
    if !is_over(room, index, large) {
        return Ok((0, bytes));
    }
    let lost = level_in(alloc, index, most_left(room, large))?;
    let kept = flags_above(alloc, index, sure, rest, lost)?;
    *sure = kept;
    lower_all(index, lost);
    Ok((lost, key_bytes(index)))
}

// Whether the keys, of which `bytes` are the bytes, are more than a few and have too many bytes.
fn are_large(room: &Room, index: &IndexMap<Key, u64, KeyHash>, bytes: usize) -> bool
    requires { bytes ≡ bytes_of (keys_of index.now.entries) }
    ensures { result ≡ are_large room.now (keys_of index.now.entries) }
{
    room.few < index.len() && room.bytes < bytes
}

// Whether there are too many keys, or `large` ones.
fn is_over(room: &Room, index: &IndexMap<Key, u64, KeyHash>, large: bool) -> bool
    requires { large ≡ are_large room.now (keys_of index.now.entries) }
    ensures { result ≡ is_over room.now (keys_of index.now.entries) }
{
    room.keys < index.len() || large
}

// The most keys that then stay.
fn most_left(room: &Room, large: bool) -> usize
    ensures { result ≡ cond large (room.now.few / 2)
        (max (room.now.few / 2) (room.now.keys / 4)) }
{
    let few = room.few / 2;
    if large { few } else { few.max(room.keys / 4) }
}

/// The least number that at most `most` counters exceed.
pub fn level_in(
    alloc: Global,
    index: &IndexMap<Key, u64, KeyHash>,
    most: usize,
) -> Result<u64, AllocError>
    ensures { IfOk result (λ t. t ≡ level index.now.entries most) }
{
    let mut numbers: Vec<u64> = index.values().copied().collect(alloc)?;
    Ok(level_of(&mut numbers, most))
}

/// Gives the flag of the key at `place`: `sure` are those of the first keys, and `rest` is that of
/// the others.
pub fn flag_at(sure: &[bool], rest: bool, place: usize) -> bool
    ensures { (n : ℕ) → place < n → result ≡ get_or (filled sure.now rest n) place false }
{
    if place < sure.len() {
        sure[place]
    } else {
        rest
    }
}

// The flags of the keys whose counter is above `t`: `sure` are those of the first keys, and `rest`
// is that of the others.
fn flags_above(
    alloc: Global,
    index: &IndexMap<Key, u64, KeyHash>,
    sure: &[bool],
    rest: bool,
    t: u64,
) -> Result<Vec<bool>, AllocError>
    ensures flags { let es = index.now.entries in IfOk result (λ kept. (test : Bytes → Bool)
        → AreFlags sure.now rest (keys_of es) test → kept.items ≡ map test (keys_of (lower t es))) }
    ensures few { let es = index.now.entries in
        IfOk result (λ kept. length kept.items ≡ length (lower t es)) }
{
    let mut kept = Vec::new(alloc);
    for i in 0..index.len() {
        if let Some((_, counter)) = index.get_index(i) {
            if *counter > t {
                kept.push(flag_at(sure, rest, i))?;
            }
        }
    }
    Ok(kept)
}

// Takes `t` from each counter, and drops those that are not above it.
fn lower_all(index: &mut IndexMap<Key, u64, KeyHash>, t: u64)
    ensures { index.new.entries ≡ lower t index.old.entries }
{
    index.retain(
        |_key: &Key, counter: &mut u64| -> bool
            ensures { (result ≡ nat_lt t counter.old) × (counter.new ≡ counter.old - t) }
        {
            let is_above = *counter > t;
            *counter = counter.saturating_sub(t);
            is_above
        },
    );
}

/// The bytes of all keys.
pub fn key_bytes(index: &IndexMap<Key, u64, KeyHash>) -> usize
    requires { length index.now.entries < 2 ^ 33 }
    ensures bytes { result ≡ bytes_of (keys_of index.now.entries) }
    ensures bounded { result ≤ 4096 * length index.now.entries }
{
    let mut bytes = 0;
    for i in 0..index.len() {
        if let Some((key, _)) = index.get_index(i) {
            bytes += key.bytes().len();
        }
    }
    bytes
}

// The keys whose counter is above `t`, with their counters, in the order of the index.
fn entries_above(
    alloc: Global,
    index: &IndexMap<Key, u64, KeyHash>,
    t: u64,
) -> Result<Vec<(Key, u64)>, AllocError>
    ensures entries { IfOk result
        (λ entries. entries.items ≡ filter (exceeds t) index.now.entries) }
    ensures distinct { OnOk result (IsDistinct same_key (keys_of index.now.entries)) }
{
    let mut entries = Vec::new(alloc);
    for i in 0..index.len() {
        if let Some((key, counter)) = index.get_index(i) {
            if *counter > t {
                push_copy(&mut entries, key, *counter)?;
            }
        }
    }
    Ok(entries)
}

/// The keys whose counter is above `t`, with their counters, by rising key.
pub fn sorted_above(
    alloc: Global,
    index: &IndexMap<Key, u64, KeyHash>,
    t: u64,
) -> Result<Vec<(Key, u64)>, AllocError>
    ensures entries { IfOk result
        (λ entries. entries.items ≡ filter (exceeds t) (tally index.now.entries)) }
    ensures count { IfOk result (λ entries. length entries.items ≡ over index.now.entries t) }
{
    let mut entries = entries_above(alloc, index, t)?;
    sort_by_key(&mut entries);
    Ok(entries)
}
