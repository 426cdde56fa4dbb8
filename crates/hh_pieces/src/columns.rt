//! The fields of a line that columns name, in a text without CR: each byte up to the last of them
//! is looked at once.

ghost use Rattle.std.specs.Prelude.{◌≡◌, ◌-◌, ◌≤◌, ◌==◌, None, Some, false, IfErr, IfOk, length, option_map, slice_range};
ghost use Rattle.hh_pieces.specs.Lines as spec;
ghost use Rattle.hh_pieces.specs.Lines.{AreAll, AreBetween, EndsRun, HasNoReturn, fields_left, is_field_end};
ghost use Rattle.hh_pieces.specs.Lines.{parts_in_columns, parts_in_line};
ghost use Rattle.hh_pieces.specs.declared.lines.LineCut.TheVariants.{Columns};

use crate::fields::{feed_from, field_end};
use crate::lines::FieldPlaces;

/// Where a field of a text begins and ends.
#[derive(Clone, Copy)]
struct Field {
    from: usize,
    end: usize,
}

/// Finds the field that begins at `from`.
#[inline(always)]
fn field_at(text: &[u8], from: usize, delimiter: u8) -> Field
    requires within { from ≤ length text.now }
    ensures from { result.from ≡ from }
    ensures end { EndsRun (is_field_end delimiter) text.now result.from result.end }
{
    Field {
        from,
        end: field_end(text, from, delimiter),
    }
}

/// Finds the field that comes `count` fields after `field`, or the end of the line, which has no
/// such field.
#[inline(always)]
fn field_after(text: &[u8], field: Field, count: usize, delimiter: u8) -> Result<Field, usize>
    requires apart { (delimiter == 10) ≡ false }
    requires end { EndsRun (is_field_end delimiter) text.now field.from field.end }
    ensures found { IfOk result (λ later.
        AreBetween delimiter text.now field.from count later.from) }
    ensures end { IfOk result (λ later.
        EndsRun (is_field_end delimiter) text.now later.from later.end) }
    ensures none { IfErr result (AreAll delimiter text.now field.from count) }
{
    let mut later = field;
    let mut passed = 0;
    while passed < count {
        if later.end == text.len() || text[later.end] != delimiter {
            return Err(later.end);
        }
        later = field_at(text, later.end + 1, delimiter);
        passed += 1;
    }
    Ok(later)
}

/// Finds the fields at the places `low` and `high` of the line that begins at `from`, or the end of
/// the line, which hasn't both.
#[inline(always)]
fn fields_at(
    text: &[u8],
    from: usize,
    low: usize,
    high: usize,
    delimiter: u8,
) -> Result<(Field, Field), usize>
    requires within { from ≤ length text.now }
    requires apart { (delimiter == 10) ≡ false }
    requires order { low ≤ high }
    ensures low { IfOk result (λ found. AreBetween delimiter text.now from low found.0.from) }
    ensures high { IfOk result (λ found.
        AreBetween delimiter text.now found.0.from (high - low) found.1.from) }
    ensures low_end { IfOk result (λ found.
        EndsRun (is_field_end delimiter) text.now found.0.from found.0.end) }
    ensures high_end { IfOk result (λ found.
        EndsRun (is_field_end delimiter) text.now found.1.from found.1.end) }
    ensures none { IfErr result (AreAll delimiter text.now from high) }
{
    let first = field_at(text, from, delimiter);
    let lower = match field_after(text, first, low, delimiter) {
        Ok(field) => field,
        Err(end) => return Err(end),
    };
    match field_after(text, lower, high - low, delimiter) {
        Ok(higher) => Ok((lower, higher)),
        Err(end) => Err(end),
    }
}

/// Finds the field at the place `key` of the line that begins at `from`, and where the line ends.
fn key_at(
    text: &[u8],
    from: usize,
    delimiter: u8,
    key: usize,
) -> (Option<(&[u8], Option<&[u8]>)>, usize)
    requires within { from ≤ length text.now }
    requires no_return { HasNoReturn text.now }
    requires apart { (delimiter == 10) ≡ false }
    ensures end { result.1 ≡ spec.line_end text.now from }
    ensures after { from ≤ result.1 }
    ensures within { result.1 ≤ length text.now }
    ensures parts { option_map (λ parts. (parts.0.now, option_map (λ field. field.now) parts.1))
        result.0 ≡ parts_in_columns key None (fields_left delimiter text.now from result.1) }
{
    let first = field_at(text, from, delimiter);
    match field_after(text, first, key, delimiter) {
        Ok(field) => {
            let end = feed_from(text, field.end);
            (Some((&text[field.from..field.end], None)), end)
        }
        Err(end) => (None, end),
    }
}

/// Finds the fields at the places `key` and `weight` of the line that begins at `from`, and where
/// the line ends.
fn pair_at(
    text: &[u8],
    from: usize,
    delimiter: u8,
    key: usize,
    weight: usize,
) -> (Option<(&[u8], Option<&[u8]>)>, usize)
    requires within { from ≤ length text.now }
    requires no_return { HasNoReturn text.now }
    requires apart { (delimiter == 10) ≡ false }
    ensures end { result.1 ≡ spec.line_end text.now from }
    ensures after { from ≤ result.1 }
    ensures within { result.1 ≤ length text.now }
    ensures parts { option_map (λ parts. (parts.0.now, option_map (λ field. field.now) parts.1))
        result.0 ≡ parts_in_columns key (Some weight)
        (fields_left delimiter text.now from result.1) }
{
    match fields_at(text, from, key.min(weight), key.max(weight), delimiter) {
        Ok((low, high)) => {
            let end = feed_from(text, high.end);
            let low = &text[low.from..low.end];
            let high = &text[high.from..high.end];
            if key <= weight {
                (Some((low, Some(high))), end)
            } else {
                (Some((high, Some(low))), end)
            }
        }
        Err(end) => (None, end),
    }
}

/// Finds the key and the weight's field of the line that begins at `from`, where it has them in the
/// columns `at`, and where it ends. What is behind both is skipped.
#[inline(always)]
pub(crate) fn columns_at(
    text: &[u8],
    from: usize,
    delimiter: u8,
    at: FieldPlaces,
) -> (Option<(&[u8], Option<&[u8]>)>, usize)
    requires within { from ≤ length text.now }
    requires no_return { HasNoReturn text.now }
    requires apart { (delimiter == 10) ≡ false }
    ensures end { result.1 ≡ spec.line_end text.now from }
    ensures after { from ≤ result.1 }
    ensures within { result.1 ≤ length text.now }
    ensures parts { option_map (λ parts. (parts.0.now, option_map (λ field. field.now) parts.1))
        result.0 ≡ parts_in_line (Columns delimiter at) (slice_range text.now from result.1) }
{
    match at.weight {
        None => key_at(text, from, delimiter, at.key),
        Some(weight) => pair_at(text, from, delimiter, at.key, weight),
    }
}
