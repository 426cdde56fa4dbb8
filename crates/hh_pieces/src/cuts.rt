//! Where a text of records may be cut.

ghost use Rattle.std.specs.Prelude.{◌≡◌, ◌≤◌, IfSome, length, take};
ghost use Rattle.memchr.specs.Find.{IsLast};
ghost use Rattle.hh_pieces.specs.Pieces.{IsCutAt, config_by, ends_outside};
ghost use Rattle.hh_pieces.specs.Quotes as spec;
ghost use Rattle.hh_records.specs.Layouts.{config_of};
ghost use Rattle.hh_pieces.specs.Quotes.{IsFeedAt, NoQuote, place_after};

use crate::fields::field_end;
use hh_records::{Format, Layout};
use memchr::{memchr, memrchr};

/// A place in a text, as far as it tells what a quote does there.
#[derive(Clone, Copy)]
pub(crate) enum QuoteState {
    /// At the start of a field: a quote opens it.
    Start,
    /// In a field with no quotes around it: a quote is a byte of the field.
    Field,
    /// In quotes: a quote closes them.
    Quoted,
    /// Right after a quote that closed a field: one more quote opens it again.
    Left,
}

/// Whether a line feed ends a record here.
pub(crate) fn is_open(place: QuoteState) -> bool
    ensures { result ≡ spec.is_open place }
{
    match place {
        QuoteState::Start | QuoteState::Field | QuoteState::Left => true,
        QuoteState::Quoted => false,
    }
}

/// The place after a byte that is no quote, outside quotes.
fn plain_after(byte: u8, delimiter: u8) -> QuoteState
    ensures { result ≡ spec.plain_after delimiter byte }
{
    if byte == delimiter || byte == b'\r' || byte == b'\n' {
        QuoteState::Start
    } else {
        QuoteState::Field
    }
}

/// The place after a quote.
fn quote_after(place: QuoteState, delimiter: u8) -> QuoteState
    ensures { result ≡ spec.place_next delimiter place 34 }
{
    match place {
        QuoteState::Start => QuoteState::Quoted,
        QuoteState::Field => plain_after(b'"', delimiter),
        QuoteState::Quoted => QuoteState::Left,
        QuoteState::Left => QuoteState::Quoted,
    }
}

/// The place after one more byte.
pub(crate) fn place_next(place: QuoteState, byte: u8, delimiter: u8) -> QuoteState
    ensures { result ≡ spec.place_next delimiter place byte }
{
    if byte == b'"' {
        quote_after(place, delimiter)
    } else if is_open(place) {
        plain_after(byte, delimiter)
    } else {
        place
    }
}

/// The place after a run with no quote.
fn run_after(text: &[u8], from: usize, to: usize, place: QuoteState, delimiter: u8) -> QuoteState
    requires order { from ≤ to }
    requires within { to ≤ length text.now }
    requires place { place ≡ place_after delimiter (take from text.now) }
    requires plain { NoQuote text.now from to }
    ensures { result ≡ place_after delimiter (take to text.now) }
{
    if from < to && is_open(place) {
        plain_after(text[to - 1], delimiter)
    } else {
        place
    }
}

/// The last line feed outside quotes, of a text that goes on with a run with no quote.
fn feed_after(
    text: &[u8],
    from: usize,
    to: usize,
    place: QuoteState,
    last: Option<usize>,
    delimiter: u8,
) -> Option<usize>
    requires order { from ≤ to }
    requires within { to ≤ length text.now }
    requires place { place ≡ place_after delimiter (take from text.now) }
    requires plain { NoQuote text.now from to }
    requires last { IsLast (IsFeedAt delimiter text.now) 0 from last }
    ensures { IsLast (IsFeedAt delimiter text.now) 0 to result }
{
    if !is_open(place) {
        return last;
    }
    match memrchr(b'\n', &text[from..to]) {
        Some(at) => Some(from + at),
        None => last,
    }
}

/// The place after a text, and the last line feed in it that is outside quotes.
fn scan(text: &[u8], delimiter: u8) -> (QuoteState, Option<usize>)
    ensures place { result.0 ≡ place_after delimiter text.now }
    ensures last { IsLast (IsFeedAt delimiter text.now) 0 (length text.now) result.1 }
{
    let mut place = QuoteState::Start;
    let mut from = 0;
    let mut last = None;
    while let Some(run) = memchr(b'"', &text[from..]) {
        let quote = from + run;
        last = feed_after(text, from, quote, place, last, delimiter);
        place = quote_after(run_after(text, from, quote, place, delimiter), delimiter);
        from = quote + 1;
    }
    let end = text.len();
    (
        run_after(text, from, end, place, delimiter),
        feed_after(text, from, end, place, last, delimiter),
    )
}

/// How many bytes of a byte order mark a text begins with.
pub(crate) fn mark_len(text: &[u8]) -> usize
    ensures { result ≡ spec.mark_len text.now }
{
    if text.len() >= 3 && text[0] == 0xEF && text[1] == 0xBB && text[2] == 0xBF {
        3
    } else {
        0
    }
}

/// Whether a text of records of this `format`, with `delimiter` between two fields, ends outside
/// quotes, so that it may be cut there before a line feed. It may not where fields are cut at line
/// feeds. Where the format has no quotes, every text does.
pub fn ends_outside_quotes(text: &[u8], format: Format, delimiter: u8) -> bool
    ensures { result ≡ ends_outside (config_by format delimiter) text.now }
{
    let between = format.byte_between(delimiter);
    if between == b'\n' {
        return false;
    }
    if !format.has_quotes() {
        return true;
    }
    let mark = mark_len(text);
    let (place, _) = scan(&text[mark..], between);
    is_open(place)
}

/// How many bytes of a part of a text are whole records: those before the last line feed outside
/// quotes, where the text may be cut. There is no such place in a part of one record, or in quotes.
pub fn whole_records(text: &[u8], format: Format, delimiter: u8) -> Option<usize>
    ensures { IsLast (IsCutAt (config_by format delimiter) text.now) 0 (length text.now) result }
{
    let between = format.byte_between(delimiter);
    if between == b'\n' {
        return None;
    }
    if !format.has_quotes() {
        return memrchr(b'\n', text);
    }
    let mark = mark_len(text);
    let (_, last) = scan(&text[mark..], between);
    match last {
        Some(at) => Some(mark + at),
        None => None,
    }
}

/// Gives how many bytes stand before the first quote, where the format has quotes.
fn plain_len(text: &[u8], format: Format) -> usize
    ensures { result ≤ length text.now }
{
    if !format.has_quotes() {
        return text.len();
    }
    match memchr(b'"', text) {
        Some(quote) => quote,
        None => text.len(),
    }
}

/// Gives how many bytes of a part of a text are whole records before the line of the first quote.
pub(crate) fn plain_records(text: &[u8], format: Format, delimiter: u8) -> Option<usize>
    ensures { IfSome result (λ count. (count ≤ length text.now)
        × IsCutAt (config_by format delimiter) text.now count) }
{
    let plain = plain_len(text, format);
    whole_records(&text[..plain], format, delimiter)
}

/// Whether the first line of a text that is not blank has a quote.
pub(crate) fn begins_with_quotes(text: &[u8]) -> bool {
    let mut from = 0;
    while from < text.len() && (text[from] == b'\r' || text[from] == b'\n') {
        from += 1;
    }
    let at = field_end(text, from, b'"');
    at < text.len() && text[at] == b'"'
}

/// Gives how many bytes at the front of a part of a text of `layout` are whole records: where
/// `quotes_apart`, those before the line of the first quote, and else all.
pub(crate) fn front_records(text: &[u8], quotes_apart: bool, layout: &Layout) -> Option<usize>
    ensures { IfSome result (λ count. (count ≤ length text.now)
        × IsCutAt (config_of layout.now) text.now count) }
{
    if quotes_apart {
        return plain_records(text, layout.format, layout.delimiter);
    }
    whole_records(text, layout.format, layout.delimiter)
}
