//! Fields of lines in a text without CR: each byte is looked at once to find where they end.

ghost use Rattle.std.specs.Prelude.{◌≡◌, ℕ, ◌+◌, ◌<◌, ◌≤◌, ◌==◌, false, true, Some, length, option_map, slice_index, slice_range};
ghost use Rattle.std.specs.Int.{bit_at};
ghost use Rattle.csv.specs.Machine.{line_feed};
ghost use Rattle.memchr.specs.Find.{is_byte};
ghost use Rattle.hh_pieces.specs.Lines as spec;
ghost use Rattle.hh_pieces.specs.Lines.{EndsRun, HasNoReturn, is_field_end, parts_in_line};
ghost use Rattle.hh_pieces.specs.declared.lines.LineCut.TheVariants.{Pair};

use memchr::{memchr, memchr2};
use std::simd::prelude::*;

/// Sets a bit for each of the 16 bytes from `from` on that ends a field.
#[inline(always)]
fn ends_among(text: &[u8], from: usize, delimiter: u8) -> u64
    requires { from + 16 ≤ length text.now }
    ensures within { (k : ℕ) → bit_at result k ≡ 1
        → (k < 16) × (is_field_end delimiter (slice_index text.now (from + k)) ≡ true) }
    ensures all { (k : ℕ) → k < 16 → is_field_end delimiter (slice_index text.now (from + k)) ≡ true
        → bit_at result k ≡ 1 }
{
    let bytes = u8x16::from_slice(&text[from..]);
    let delimiters = bytes.simd_eq(u8x16::splat(delimiter)).to_bitmask();
    let feeds = bytes.simd_eq(u8x16::splat(b'\n')).to_bitmask();
    delimiters | feeds
}

/// Gives the place of the lowest of some `bits`.
#[inline(always)]
fn lowest(bits: u64) -> usize
    requires { 0 < bits }
    ensures set { bit_at bits result ≡ 1 }
    ensures below { (k : ℕ) → k < result → bit_at bits k ≡ 0 }
{
    bits.trailing_zeros() as usize
}

/// Finds the first line feed from `from` on, or where the text ends.
pub(crate) fn feed_from(text: &[u8], from: usize) -> usize
    requires within { from ≤ length text.now }
    ensures { EndsRun (is_byte line_feed) text.now from result }
{
    match memchr(b'\n', &text[from..]) {
        Some(run) => from + run,
        None => text.len(),
    }
}

/// Finds where the field ends that begins at `from`, however long it is.
fn far_end(text: &[u8], from: usize, delimiter: u8) -> usize
    requires within { from ≤ length text.now }
    ensures { EndsRun (is_field_end delimiter) text.now from result }
{
    match memchr2(delimiter, b'\n', &text[from..]) {
        Some(run) => from + run,
        None => text.len(),
    }
}

/// Finds where the field ends that begins at `from`: at a delimiter, at LF or with the text. Most
/// fields end near.
#[inline(always)]
pub(crate) fn field_end(text: &[u8], from: usize, delimiter: u8) -> usize
    requires within { from ≤ length text.now }
    ensures { EndsRun (is_field_end delimiter) text.now from result }
{
    if text.len() - from >= 16 {
        let ends = ends_among(text, from, delimiter);
        if ends != 0 {
            return from + lowest(ends);
        }
    }
    far_end(text, from, delimiter)
}

/// Finds the key and the weight's field of the line that begins at `from`, if it has one or two
/// fields, and where it ends.
#[inline(always)]
pub(crate) fn line_at(
    text: &[u8],
    from: usize,
    delimiter: u8,
) -> (Option<(&[u8], Option<&[u8]>)>, usize)
    requires within { from ≤ length text.now }
    requires no_return { HasNoReturn text.now }
    requires apart { (delimiter == 10) ≡ false }
    ensures end { result.1 ≡ spec.line_end text.now from }
    ensures after { from ≤ result.1 }
    ensures within { result.1 ≤ length text.now }
    ensures parts { option_map (λ parts. (parts.0.now, option_map (λ field. field.now) parts.1))
        result.0 ≡ parts_in_line (Pair delimiter) (slice_range text.now from result.1) }
{
    let key_end = field_end(text, from, delimiter);
    if key_end == text.len() || text[key_end] != delimiter {
        return (Some((&text[from..key_end], None)), key_end);
    }
    let next = key_end + 1;
    let end = field_end(text, next, delimiter);
    if end == text.len() || text[end] != delimiter {
        return (Some((&text[from..key_end], Some(&text[next..end]))), end);
    }
    (None, feed_from(text, end + 1))
}
