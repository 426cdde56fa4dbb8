//! Reading a saved file, field by field from the left.

ghost use Rattle.std.specs.Prelude.{◌≡◌, ◌≤◌, ◌<◌, ◌+◌, ◌*◌, ◌++◌, Ok, Err, [], length, IfOk, OnOk, true};
ghost use Rattle.std.specs.Int.{w8, w16, w32, w64, from_be_bytes};
ghost use Rattle.hh_stream.specs.Weights.{max_key_len};
ghost use Rattle.hh_stream.specs.Ranges.{in_range};
ghost use Rattle.hh_countmin.specs.Family.{max_depth, max_width};
ghost use Rattle.hh_saved.specs.declared.format.Version.{Version};
ghost use Rattle.hh_saved.specs.declared.saved.Saved.{Saved};
ghost use Rattle.hh_saved.specs.Spelling.{Spells, len_width};
ghost use Rattle.hh_saved.specs.Reading.{Gives, Reads, StopsAt, number_at, bytes_at, total_at, with_front, last_key_of, version_at, len_at, key_at, entry_at, entries_at, k_at, count_at, sketch_at, blocks_in, pair_of, family_at, cells_in, row_at, rows_at, grid_at, body_at, value_at, saved_of, entries_head_at, sketch_head_at, grid_head_at, body_head_at, head_at};

use crate::format::{CELLS, COUNTERS, Version};
use crate::saved::Saved;
use hh_countmin::{Family, MAX_DEPTH, MAX_WIDTH, Table, sums_to};
use hh_faults::SavedFault;
use hh_stream::{Key, MAX_TOTAL, in_range};
use hh_summaries::Summary;
use std::alloc::{AllocError, Global};

/// Reads the summary or table that all of `bytes` spell, in either version. If they spell none, the
/// error is the first fault from left to right: fields are read in order, a field that is cut short
/// is [`SavedFault::Truncated`], and otherwise its own check decides before the next field is read.
/// Bytes after the last field are [`SavedFault::Trailing`].
///
/// No memory is taken for a field before its bytes are known to be there.
pub fn read(alloc: Global, bytes: &[u8]) -> Result<Saved, SavedFault>
    // What is read is spelled so, in one of the versions.
    ensures found { IfOk result (λ saved. (version : Version) × Spells version bytes.now saved) }

    // What a version spells so is read, unless memory runs out.
    ensures only { (version : Version) (saved : Saved) → Spells version bytes.now saved
        → Gives (λ v. v) result (Ok saved) }

    // Which fault it is.
    ensures exact { Gives (λ v. v) result (saved_of bytes.now) }

    // A fault before any memory is taken is found whatever the memory.
    ensures early { (fault : SavedFault) → head_at bytes.now ≡ Err fault → result ≡ Err fault }
{
    read_all(alloc, bytes)
}

#[tactic(auto, unfolding(crate::specs::Reading::saved_of))]
fn read_all(alloc: Global, bytes: &[u8]) -> Result<Saved, SavedFault>
    ensures all { Gives (λ v. v) result (saved_of bytes.now) }
    ensures early { StopsAt result (head_at bytes.now) }
{
    let (saved, rest) = take_value(alloc, bytes)?;
    if !rest.is_empty() {
        return Err(SavedFault::Trailing);
    }
    Ok(saved)
}

#[tactic(auto, unfolding(crate::specs::Reading::value_at, crate::specs::Reading::head_at))]
fn take_value(alloc: Global, bytes: &[u8]) -> Result<(Saved, &[u8]), SavedFault>
    ensures value { Gives (λ x. (x.0, x.1.now)) result (value_at bytes.now) }
    ensures early { StopsAt result (head_at bytes.now) }
{
    let (version, rest) = take_version(bytes)?;
    let (kind, rest) = take_u8(rest)?;
    take_body(alloc, version, kind, rest)
}

// Reads the magic, and gives the version that it names with the bytes after it.
#[tactic(auto, unfolding(crate::specs::Reading::version_at))]
pub(crate) fn take_version(bytes: &[u8]) -> Result<(Version, &[u8]), SavedFault>
    ensures { Reads (λ x. (x.0, x.1.now)) result (version_at bytes.now) }
{
    let (magic, rest) = take_u32(bytes)?;
    if magic == Version::One.magic() {
        return Ok((Version::One, rest));
    }
    if magic == Version::Two.magic() {
        return Ok((Version::Two, rest));
    }
    Err(SavedFault::BadMagic)
}

#[tactic(auto, unfolding(crate::specs::Reading::body_at, crate::specs::Reading::body_head_at))]
fn take_body(
    alloc: Global,
    version: Version,
    kind: u8,
    bytes: &[u8],
) -> Result<(Saved, &[u8]), SavedFault>
    ensures body { Gives (λ x. (x.0, x.1.now)) result (body_at version kind bytes.now) }
    ensures early { StopsAt result (body_head_at version kind bytes.now) }
{
    if kind == COUNTERS {
        let (summary, rest) = take_summary(alloc, version, bytes)?;
        return Ok((Saved::Counters(summary), rest));
    }
    if kind == CELLS {
        let (table, rest) = take_table(alloc, bytes)?;
        return Ok((Saved::Cells(table), rest));
    }
    Err(SavedFault::BadKind)
}

// ---- fields: each function reads one at the front of `bytes`, and gives it with those after it

fn take_bytes(len: usize, bytes: &[u8]) -> Result<(&[u8], &[u8]), SavedFault>
    ensures { Reads (λ x. (x.0.now, x.1.now)) result (bytes_at len bytes.now) }
{
    if bytes.len() < len {
        return Err(SavedFault::Truncated);
    }
    Ok(bytes.split_at(len))
}

fn take_u8(bytes: &[u8]) -> Result<(u8, &[u8]), SavedFault>
    ensures { Reads (λ x. (x.0, x.1.now)) result (number_at w8 bytes.now) }
{
    let (front, rest) = take_bytes(1, bytes)?;
    Ok((front[0], rest))
}

fn take_u16(bytes: &[u8]) -> Result<(u16, &[u8]), SavedFault>
    ensures { Reads (λ x. (x.0, x.1.now)) result (number_at w16 bytes.now) }
{
    let (front, rest) = take_bytes(2, bytes)?;
    Ok((u16::from_be_bytes([front[0], front[1]]), rest))
}

fn take_u32(bytes: &[u8]) -> Result<(u32, &[u8]), SavedFault>
    ensures { Reads (λ x. (x.0, x.1.now)) result (number_at w32 bytes.now) }
{
    let (front, rest) = take_bytes(4, bytes)?;
    let number = u32::from_be_bytes([front[0], front[1], front[2], front[3]]);
    Ok((number, rest))
}

fn take_u64(bytes: &[u8]) -> Result<(u64, &[u8]), SavedFault>
    ensures { Reads (λ x. (x.0, x.1.now)) result (number_at w64 bytes.now) }
{
    let (front, rest) = take_bytes(8, bytes)?;
    Ok((number_in(front), rest))
}

// The number that 8 bytes are.
fn number_in(block: &[u8]) -> u64
    requires { length block.now ≡ 8 }
    ensures { result ≡ from_be_bytes w64 block.now }
{
    u64::from_be_bytes([
        block[0], block[1], block[2], block[3], block[4], block[5], block[6], block[7],
    ])
}

fn take_total(bytes: &[u8]) -> Result<(u64, &[u8]), SavedFault>
    ensures { Reads (λ x. (x.0, x.1.now)) result (total_at bytes.now) }
{
    let (total, rest) = take_u64(bytes)?;
    if total > MAX_TOTAL {
        return Err(SavedFault::TotalTooLarge);
    }
    Ok((total, rest))
}

// ---- a counter summary

// Reads the field that holds a key's length: one byte in version 1, two in version 2.
fn take_len_field(version: Version, bytes: &[u8]) -> Result<(usize, &[u8]), SavedFault>
    ensures { Reads (λ x. (x.0, x.1.now)) result (number_at (len_width version) bytes.now) }
{
    match version {
        Version::One => {
            let (len, rest) = take_u8(bytes)?;
            Ok((usize::from(len), rest))
        }
        Version::Two => {
            let (len, rest) = take_u16(bytes)?;
            Ok((usize::from(len), rest))
        }
    }
}

// Reads the length of a key, in bytes: 1 to the most that `version` allows.
fn take_len(version: Version, bytes: &[u8]) -> Result<(usize, &[u8]), SavedFault>
    ensures len { Reads (λ x. (x.0, x.1.now)) result (len_at version bytes.now) }
    ensures key { IfOk result (λ x. (0 < x.0) × (x.0 ≤ max_key_len)) }
{
    let (len, rest) = take_len_field(version, bytes)?;
    if len == 0 || len > version.max_len() {
        return Err(SavedFault::BadKey);
    }
    Ok((len, rest))
}

#[tactic(auto, unfolding(crate::specs::Reading::key_at))]
fn take_key<'a>(
    version: Version,
    before: &[u8],
    bytes: &'a [u8],
) -> Result<(&'a [u8], &'a [u8]), SavedFault>
    ensures key { Reads (λ x. (x.0.now, x.1.now)) result (key_at version before.now bytes.now) }
    ensures len { IfOk result (λ x. (0 < length x.0.now) × (length x.0.now ≤ max_key_len)) }
{
    let (len, rest) = take_len(version, bytes)?;
    let (key, rest) = take_bytes(len, rest)?;
    if !before.cmp(key).is_lt() {
        return Err(SavedFault::KeyOrder);
    }
    Ok((key, rest))
}

// The fields of an entry, all of which are read before its key takes memory.
#[tactic(auto, unfolding(crate::specs::Reading::entry_at))]
fn take_fields<'a>(
    version: Version,
    before: &[u8],
    left: u64,
    bytes: &'a [u8],
) -> Result<((&'a [u8], u64), &'a [u8]), SavedFault>
    ensures fields { Reads (λ x. ((x.0.0.now, x.0.1), x.1.now)) result
        (entry_at version before.now left bytes.now) }
    ensures left { IfOk result (λ x. x.0.1 ≤ left) }
    ensures len { IfOk result (λ x. (0 < length x.0.0.now) × (length x.0.0.now ≤ max_key_len)) }
{
    let (key, rest) = take_key(version, before, bytes)?;
    let (counter, rest) = take_u64(rest)?;
    if counter == 0 {
        return Err(SavedFault::BadCounter);
    }
    if counter > left {
        return Err(SavedFault::SumTooLarge);
    }
    Ok(((key, counter), rest))
}

fn take_entry<'a>(
    alloc: Global,
    version: Version,
    before: &[u8],
    left: u64,
    bytes: &'a [u8],
) -> Result<((Key, u64), &'a [u8]), SavedFault>
    ensures entry { Gives (λ x. (x.0, x.1.now)) result
        (entry_at version before.now left bytes.now) }
    ensures left { IfOk result (λ x. x.0.1 ≤ left) }
    ensures early { StopsAt result (entry_at version before.now left bytes.now) }
{
    let ((key, counter), rest) = take_fields(version, before, left, bytes)?;
    let key = Key::of_bytes(alloc, key)?;
    Ok(((key, counter), rest))
}

// The key of the last entry, or no bytes.
fn last_key(entries: &[(Key, u64)]) -> &[u8]
    ensures { result.now ≡ last_key_of entries.now }
{
    match entries.last() {
        Some(entry) => entry.0.bytes(),
        None => &[],
    }
}

fn take_entries(
    alloc: Global,
    version: Version,
    count: u64,
    total: u64,
    bytes: &[u8],
) -> Result<(Vec<(Key, u64)>, &[u8]), SavedFault>
    ensures entries { Gives (λ x. (x.0.items, x.1.now)) result
        (entries_at version count [] total bytes.now) }
    ensures early { StopsAt result (entries_head_at version count total bytes.now) }
{
    let mut entries = Vec::new(alloc);
    let mut left = total;
    let mut rest = bytes;
    for _ in 0..count {
        let (entry, after) = take_entry(alloc, version, last_key(&entries), left, rest)?;
        left -= entry.1;
        entries.push(entry)?;
        rest = after;
    }
    Ok((entries, rest))
}

fn take_k(bytes: &[u8]) -> Result<(u16, &[u8]), SavedFault>
    ensures { Reads (λ x. (x.0, x.1.now)) result (k_at bytes.now) }
{
    let (k, rest) = take_u16(bytes)?;
    if k == 0 {
        return Err(SavedFault::BadK);
    }
    Ok((k, rest))
}

// Reads how many counters there are, which is at most `k`.
fn take_count(k: u16, bytes: &[u8]) -> Result<(u16, &[u8]), SavedFault>
    ensures { Reads (λ x. (x.0, x.1.now)) result (count_at k bytes.now) }
{
    let (count, rest) = take_u16(bytes)?;
    if count > k {
        return Err(SavedFault::BadCount);
    }
    Ok((count, rest))
}

#[tactic(auto, unfolding(crate::specs::Reading::sketch_at, crate::specs::Reading::sketch_head_at))]
fn take_summary(
    alloc: Global,
    version: Version,
    bytes: &[u8],
) -> Result<(Summary, &[u8]), SavedFault>
    ensures summary { Gives (λ x. (x.0, x.1.now)) result (sketch_at version bytes.now) }
    ensures early { StopsAt result (sketch_head_at version bytes.now) }
{
    let (k, rest) = take_k(bytes)?;
    let (total, rest) = take_total(rest)?;
    let (count, rest) = take_count(k, rest)?;
    let (entries, rest) = take_entries(alloc, version, u64::from(count), total, rest)?;
    Ok((Summary::from_entries(u64::from(k), total, entries), rest))
}

// ---- a Count-Min table

// The two numbers that 16 bytes are.
fn pair_in(block: &[u8]) -> (u64, u64)
    requires { length block.now ≡ 16 }
    ensures { result ≡ pair_of block.now }
{
    let (first, second) = block.split_at(8);
    (number_in(first), number_in(second))
}

// The coefficients of `depth` rows.
fn pairs_in(alloc: Global, depth: usize, bytes: &[u8]) -> Result<Vec<(u64, u64)>, AllocError>
    requires { length bytes.now ≡ 16 * depth }
    ensures { IfOk result (λ rows. rows.items ≡ blocks_in pair_of 16 depth bytes.now) }
{
    let mut rows = Vec::new(alloc);
    for r in 0..depth {
        rows.push(pair_in(&bytes[16 * r..16 * r + 16]))?;
    }
    Ok(rows)
}

#[tactic(auto, unfolding(crate::specs::Reading::family_at))]
fn take_family(alloc: Global, depth: usize, bytes: &[u8]) -> Result<(Family, &[u8]), SavedFault>
    requires { in_range depth max_depth ≡ true }
    ensures family { Gives (λ x. (x.0, x.1.now)) result (family_at depth bytes.now) }
    ensures early { StopsAt result (bytes_at (8 + 16 * depth) bytes.now) }
{
    let (field, rest) = take_bytes(8 + 16 * depth, bytes)?;
    let (first, others) = field.split_at(8);
    let rows = pairs_in(alloc, depth, others)?;
    let z = number_in(first);
    if !Family::are_coefficients(z, &rows) {
        return Err(SavedFault::BadCoefficient);
    }
    Ok((Family::from_rows(z, rows), rest))
}

// Puts the cells of a row at the end.
fn push_cells(cells: &mut Vec<u64>, width: usize, bytes: &[u8]) -> Result<(), AllocError>
    requires { length bytes.now ≡ 8 * width }
    ensures { OnOk result (cells.new.items ≡ cells.old.items ++ cells_in width bytes.now) }
{
    cells.reserve(width)?;
    for i in 0..width {
        cells.push(number_in(&bytes[8 * i..8 * i + 8]))?;
    }
    Ok(())
}

#[tactic(auto, unfolding(crate::specs::Reading::row_at))]
fn take_row<'a>(
    cells: &mut Vec<u64>,
    width: usize,
    total: u64,
    bytes: &'a [u8],
) -> Result<&'a [u8], SavedFault>
    requires { width ≤ max_width }
    ensures { Gives (λ rest. (cells.new.items, rest.now)) result
        (with_front cells.old.items (row_at width total bytes.now)) }
{
    let (field, rest) = take_bytes(8 * width, bytes)?;
    let start = cells.len();
    push_cells(cells, width, field)?;
    if !sums_to(&cells[start..], total) {
        return Err(SavedFault::RowSum);
    }
    Ok(rest)
}

fn take_rows(
    alloc: Global,
    depth: u64,
    width: usize,
    total: u64,
    bytes: &[u8],
) -> Result<(Vec<u64>, &[u8]), SavedFault>
    requires { width ≤ max_width }
    ensures { Gives (λ x. (x.0.items, x.1.now)) result (rows_at depth width total bytes.now) }
{
    let mut cells = Vec::new(alloc);
    let mut rest = bytes;
    for _ in 0..depth {
        rest = take_row(&mut cells, width, total, rest)?;
    }
    Ok((cells, rest))
}

#[tactic(auto, unfolding(crate::specs::Reading::grid_at, crate::specs::Reading::grid_head_at))]
fn take_table(alloc: Global, bytes: &[u8]) -> Result<(Table, &[u8]), SavedFault>
    ensures table { Gives (λ x. (x.0, x.1.now)) result (grid_at bytes.now) }
    ensures early { StopsAt result (grid_head_at bytes.now) }
{
    let (width, rest) = take_u32(bytes)?;
    let width = u64::from(width);
    if !in_range(width, MAX_WIDTH) {
        return Err(SavedFault::BadWidth);
    }
    let (depth, rest) = take_u8(rest)?;
    let depth = u64::from(depth);
    if !in_range(depth, MAX_DEPTH) {
        return Err(SavedFault::BadDepth);
    }
    let (family, rest) = take_family(alloc, depth as usize, rest)?;
    let (total, rest) = take_total(rest)?;
    let (cells, rest) = take_rows(alloc, depth, width as usize, total, rest)?;
    Ok((Table::from_cells(family, width, total, cells), rest))
}
