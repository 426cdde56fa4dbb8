//! Records of texts without quotes, or where a quote is a byte as any other: each line is one, and
//! its fields are what stands between separators.

ghost use Rattle.std.specs.Bool.{OnTrue};
ghost use Rattle.std.specs.Prelude.{◌≡◌, ◌≤◌, ◌+◌, IfErr, IfOk, OnOk, Ok, Some, length, map, option_map, slice_range, true};
ghost use Rattle.hh_stream.specs.Weights.{max_total};
ghost use Rattle.hh_stream.specs.Taking.{Takes};
ghost use Rattle.hh_records.specs.Formats.{part_said};
ghost use Rattle.hh_records.specs.Layouts.{RowsRefused, items_after};
ghost use Rattle.hh_pieces.specs.Lines as spec;
ghost use Rattle.hh_pieces.specs.Lines.{CutsWithin, HasNoReturn, IsUnquoted, filled_lines, line_parts, parts_in_line};

use crate::columns::columns_at;
use crate::fields::{feed_from, line_at};
use crate::key_parts::key_parts;
use hh_faults::TextError;
use hh_records::{Format, Layout, take_parts};
use hh_stream::TakeItems;
use memchr::{memchr, memchr2};
use std::alloc::Global;

/// Whether a byte may stand between fields where no quote does.
pub(crate) fn is_separator(byte: u8) -> bool
    ensures { result ≡ spec.is_separator byte }
{
    byte != b'"' && byte != b'\r' && byte != b'\n'
}

/// Whether a text has no quote.
fn is_unquoted(text: &[u8]) -> bool
    ensures { OnTrue result (IsUnquoted text.now) }
{
    memchr(b'"', text).is_none()
}

/// Whether a text has no quote, where there are quotes at all.
pub(crate) fn sees_no_quote(text: &[u8], quoting: bool) -> bool
    ensures { OnTrue result (quoting ≡ true → IsUnquoted text.now) }
{
    !quoting || is_unquoted(text)
}

/// Whether a text has no CR.
fn has_no_return(text: &[u8]) -> bool
    ensures { OnTrue result (HasNoReturn text.now) }
{
    memchr(b'\r', text).is_none()
}

/// Where the line ends that begins at `from`.
fn any_line_end(text: &[u8], from: usize) -> usize
    requires within { from ≤ length text.now }
    ensures end { result ≡ spec.line_end text.now from }
    ensures after { from ≤ result }
    ensures within { result ≤ length text.now }
{
    match memchr2(b'\r', b'\n', &text[from..]) {
        Some(run) => from + run,
        None => text.len(),
    }
}

/// Where the fields stand that are the key and, where it has a column, the weight's, from 0 on.
#[derive(Clone, Copy)]
pub(crate) struct FieldPlaces {
    pub(crate) key: usize,
    pub(crate) weight: Option<usize>,
}

/// How the key and the weight's field of a line are found.
#[derive(Clone, Copy)]
pub(crate) enum LineCut {
    /// The line is the key.
    Whole,
    /// The line is cut at this byte, and its one or two fields are the key and the weight's.
    Pair(u8),
    /// The line is cut at this byte, and its fields at these places are the key and the weight's.
    Columns(u8, FieldPlaces),
}

/// How the lines of a format are cut where no columns are named.
pub(crate) fn cut_of(format: Format, delimiter: u8) -> LineCut
    ensures { result ≡ spec.cut_of format delimiter }
{
    match format {
        Format::Csv | Format::Unquoted | Format::Squeezed => LineCut::Pair(delimiter),
        Format::Lines | Format::Json => LineCut::Whole,
    }
}

/// Finds the key and the weight's field of the line that begins at `from`, and where it ends, in a
/// text without CR. `cut` says how the line is cut.
#[inline(always)]
fn plain_parts(text: &[u8], from: usize, cut: LineCut) -> (Option<(&[u8], Option<&[u8]>)>, usize)
    requires within { from ≤ length text.now }
    requires no_return { HasNoReturn text.now }
    requires apart { CutsWithin cut }
    ensures end { result.1 ≡ spec.line_end text.now from }
    ensures after { from ≤ result.1 }
    ensures within { result.1 ≤ length text.now }
    ensures parts { option_map (λ parts. (parts.0.now, option_map (λ field. field.now) parts.1))
        result.0 ≡ parts_in_line cut (slice_range text.now from result.1) }
{
    match cut {
        LineCut::Whole => {
            let end = feed_from(text, from);
            (Some((&text[from..end], None)), end)
        }
        LineCut::Pair(delimiter) => line_at(text, from, delimiter),
        LineCut::Columns(delimiter, at) => columns_at(text, from, delimiter, at),
    }
}

/// Finds the key and the weight's field of the line that begins at `from`, and where it ends. `cut`
/// says how the line is cut. A text that `has_no_return` is looked at once.
fn parts_from(
    text: &[u8],
    from: usize,
    cut: LineCut,
    has_no_return: bool,
) -> (Option<(&[u8], Option<&[u8]>)>, usize)
    requires within { from ≤ length text.now }
    requires no_return { OnTrue has_no_return (HasNoReturn text.now) }
    requires apart { CutsWithin cut }
    ensures end { result.1 ≡ spec.line_end text.now from }
    ensures after { from ≤ result.1 }
    ensures within { result.1 ≤ length text.now }
    ensures parts { option_map (λ parts. (parts.0.now, option_map (λ field. field.now) parts.1))
        result.0 ≡ parts_in_line cut (slice_range text.now from result.1) }
{
    if has_no_return {
        return plain_parts(text, from, cut);
    }
    let end = any_line_end(text, from);
    let (parts, _) = plain_parts(&text[from..end], 0, cut);
    (parts, end)
}

/// Hands on what each line of `text` adds, blank ones aside, and counts all records, with the
/// number of those `before`, and those that are `bad`. `cut` says how a line is cut; of its key the
/// part of `layout` counts.
pub(crate) fn read_lines<T: TakeItems>(
    alloc: Global,
    text: &[u8],
    cut: LineCut,
    before: u64,
    taker: &mut T,
    bad: &mut u64,
    layout: &Layout,
) -> Result<u64, TextError>
    requires apart { CutsWithin cut }
    requires bounded { T.weight_taken taker.old ≤ max_total }
    ensures items { IfOk result (λ after.
        Takes T.with_item T.weight_taken taker.old taker.new (λ xs.
        (items_after layout.now (before + 1) (T.weight_taken taker.old)
        (map (line_parts (part_said layout.now.part) cut) (filled_lines text.now)) ≡ Ok xs)
        × (after ≡ before + length (filled_lines text.now)))) }
    ensures bounded { OnOk result (T.weight_taken taker.new ≤ max_total) }
    ensures refused { IfErr result (λ error.
        RowsRefused layout.now before (T.weight_taken taker.old)
        (Some (map (line_parts (part_said layout.now.part) cut) (filled_lines text.now))) error) }
{
    let has_no_return = has_no_return(text);
    let is_whole = layout.part.is_whole();
    if before > u64::MAX - text.len() as u64 {
        return Err(TextError::ReadFault);
    }
    let mut from = 0;
    let mut number = before;
    while from < text.len() {
        let (parts, end) = parts_from(text, from, cut, has_no_return);
        if from < end {
            number += 1;
            let parts = key_parts(parts, &layout.part, is_whole);
            take_parts(alloc, taker, number, parts, bad, layout)?;
        }
        from = end + 1;
    }
    Ok(number)
}
