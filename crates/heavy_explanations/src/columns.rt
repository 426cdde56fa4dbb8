//! Which column a record or a header doesn't have.

use crate::escaped::{Name, Quoted};
use crate::record_place::{Text, Texts};
use hh_records::{Column, column_of};
use std::fmt::{self, Display};

/// The most bytes of a header's names that are shown, with what stands around each.
const MOST_SHOWN: usize = 200;

/// The bytes of the quotes around a name and of what parts it from the next one.
const AROUND: usize = 4;

/// A column that a record doesn't have.
#[derive(Clone, Copy)]
pub(crate) enum Missing<'a> {
    /// One that isn't known.
    Unknown,
    /// The one that an `option` names by its number, of which these are the digits.
    Number(&'static str, Name<'a>),
    /// The one with this number that an `option` names by its name.
    Name(&'static str, u64, Quoted<'a>),
}

impl<'a> Display for Missing<'a> {
    fn fmt<W: fmt::Write>(&self, f: &mut fmt::Formatter<W>) -> fmt::Result {
        match self {
            Missing::Unknown => f.write_str("--key or --weight names another"),
            Missing::Number(option, number) => write!(f, "{option} names column {number}"),
            Missing::Name(option, number, name) => {
                write!(f, "{option} names column {number}, {name}")
            }
        }
    }
}

/// Finds the place of `name`, from 0 on, in a `header`.
fn place_in(header: &[Vec<u8>], name: &[u8]) -> Option<usize> {
    for (place, field) in header.iter().enumerate() {
        if field.as_slice() == name {
            return Some(place);
        }
    }
    None
}

/// Gives the place, from 0 on, of the column that `word` names in `text`.
pub(crate) fn column_place(texts: Texts<'_>, text: Text<'_>, word: &[u8]) -> Option<usize> {
    let has_header = texts.records.layout.has_header;
    match column_of(texts.rt.alloc(), word, has_header) {
        Ok(Some(Column::Number(number))) => number.checked_sub(1),
        Ok(Some(Column::Name(column))) => place_in(&texts.header_of(text)?, &column),
        _ => None,
    }
}

/// Gives the digits of a number without the zeros in front.
fn without_zeros(word: &[u8]) -> &[u8] {
    match word.iter().position(|digit| *digit != b'0') {
        Some(first) => word.get(first..).unwrap_or(word),
        None => word,
    }
}

/// Gives the column that `word` names for an `option`, where a record of `text` with `count` fields
/// doesn't have it.
fn missing_at<'a>(
    texts: Texts<'_>,
    text: Text<'_>,
    count: u64,
    option: &'static str,
    word: &'a [u8],
) -> Option<Missing<'a>> {
    let place = column_place(texts, text, word)? as u64;
    let number = place.saturating_add(1);
    if place < count {
        None
    } else if word.iter().all(|byte| byte.is_ascii_digit()) {
        Some(Missing::Number(option, Name(without_zeros(word))))
    } else {
        Some(Missing::Name(option, number, Quoted(word)))
    }
}

/// Finds the first column that a record of `text` with `count` fields doesn't have.
pub(crate) fn missing_field<'a>(texts: Texts<'a>, text: Text<'_>, count: u64) -> Missing<'a> {
    let layout = &texts.records.layout;
    for word in &layout.key {
        if let Some(missing) = missing_at(texts, text, count, "--key", word) {
            return missing;
        }
    }
    match &layout.weight {
        Some(word) => {
            missing_at(texts, text, count, "--weight", word).unwrap_or(Missing::Unknown)
        }
        None => Missing::Unknown,
    }
}

/// Gives the begin of `name` that has at most `most` bytes, and ends with a whole character where
/// the name is a text.
fn begin_of(name: &[u8], most: usize) -> &[u8] {
    let begin = name.get(..most).unwrap_or(name);
    match str::from_utf8(begin) {
        Err(error) if begin.len() < name.len() => {
            let whole = error.valid_up_to();
            if begin.len().saturating_sub(whole) < AROUND {
                begin.get(..whole).unwrap_or(begin)
            } else {
                begin
            }
        }
        _ => begin,
    }
}

/// The names of a header, each in quotes, as far as there is room for them.
#[derive(Clone, Copy)]
struct Columns<'a>(&'a [Vec<u8>]);

impl<'a> Display for Columns<'a> {
    fn fmt<W: fmt::Write>(&self, f: &mut fmt::Formatter<W>) -> fmt::Result {
        let (mut between, mut room) = ("", MOST_SHOWN);
        for name in self.0 {
            if room == 0 {
                return write!(f, "{between}..");
            }
            let shown = begin_of(name, room);
            write!(f, "{between}{}", Quoted(shown))?;
            if shown.len() < name.len() {
                return f.write_str("..");
            }
            room = room.saturating_sub(name.len().saturating_add(AROUND));
            between = ", ";
        }
        Ok(())
    }
}

/// Finds the first column that `text` doesn't have.
fn missing_column<'a>(texts: Texts<'a>, text: Text<'_>) -> Option<&'a [u8]> {
    let layout = &texts.records.layout;
    for word in &layout.key {
        if column_place(texts, text, word).is_none() {
            return Some(word.as_slice());
        }
    }
    match &layout.weight {
        Some(word) if column_place(texts, text, word).is_none() => Some(word.as_slice()),
        _ => None,
    }
}

/// Prints which column is missing, in which text, and what columns its header has, where the text
/// can be looked at again.
pub(crate) fn tell_columns(texts: Texts<'_>) {
    for place in 0..u64::MAX {
        let Some(text) = texts.text(place) else {
            return;
        };
        if let (Some(header), Some(column)) = (texts.header_of(text), missing_column(texts, text)) {
            let (name, column, columns) = (text.called(), Quoted(column), Columns(&header));
            let _ = eprintln!(texts.rt;
                "  {name} has no column {column}; its header has {columns}"
            );
            return;
        }
    }
}
