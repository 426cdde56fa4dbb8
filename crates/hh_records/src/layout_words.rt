//! How words say where the keys and the weights of records stand.

ghost use Rattle.std.specs.Prelude.{◌≡◌, IfOk, IfErr, IfSome, map, option_map};
ghost use Rattle.hh_records.specs.Formats.{part_said};
ghost use Rattle.hh_records.specs.LayoutWords.{ColumnRefused, ColumnsRefused, HasKeyLength, KeyRefused, LayoutRefused, NamesKey, NamesWeight, SaysColumn, SaysLayout};
ghost use Rattle.hh_records.specs.LayoutWords.{bad_word, byte_said, key_words, naming, weight_word};

use crate::format::{Format, KeyPart};
use crate::layout::{BadAs, Column, Layout, column_of, delimiter_of};
use hh_faults::{KeyCause, ToolError};
use hh_stream::{KeyHash, MAX_KEY_LEN};
use std::alloc::{AllocError, Global};

/// Where the keys and the weights of records stand, in words.
#[derive(Debug, Drop)]
pub struct LayoutWords {
    /// How a record is written.
    pub format: Format,
    /// The byte between two fields, or `\t` for a tab. It is a quote only where none is quoted.
    /// Nothing says a comma or, where several delimiters are one, a space.
    pub delimiter: Option<Vec<u8>>,
    /// The first record of each text names the columns.
    pub has_header: bool,
    /// The columns of the key: numbers from 1 on or, with a header, names. Of JSON objects they are
    /// members: names, or JSON pointers, which begin with a slash.
    pub key: Vec<Vec<u8>>,
    /// The column of the weight.
    pub weight: Option<Vec<u8>>,
    /// The key ends before the first of these bytes in its last column.
    pub until: Vec<u8>,
    /// The key has at most this many bytes of its last column.
    pub prefix: Option<u64>,
    /// A record of weight 0 adds nothing and is no fault, nor is one of weight `-`.
    pub allow_zero: bool,
    /// The most digits that a weight has after a point. It counts in units of the last of them.
    pub decimals: u8,
    /// The key, of 1 to 4,096 bytes, that each record counts as that fails a test, of weight 1.
    /// Nothing says that such a record is refused.
    pub bad_as: Option<Vec<u8>>,
}

/// Gives the column that `word` names ([`ToolError::BadColumn`]). Of objects it is the name of a
/// member.
fn column_said(
    alloc: Global,
    word: &[u8],
    is_json: bool,
    has_header: bool,
) -> Result<Column, ToolError>
    ensures named { IfOk result (SaysColumn (is_json, has_header) word.now) }
    ensures unnamed { IfErr result (ColumnRefused (is_json, has_header) word.now) }
{
    if is_json {
        return Ok(Column::Name(Vec::from_slice(alloc, word)?));
    }
    match column_of(alloc, word, has_header)? {
        Some(column) => Ok(column),
        None => Err(ToolError::BadColumn),
    }
}

/// Gives the columns that `words` name ([`ToolError::BadColumn`]).
fn key_of(
    alloc: Global,
    words: &[Vec<u8>],
    is_json: bool,
    has_header: bool,
) -> Result<Vec<Column>, ToolError>
    ensures named { IfOk result (λ key.
        NamesKey (is_json, has_header) (map (λ word. word.items) words.now) key.items) }
    ensures unnamed { IfErr result
        (KeyRefused (is_json, has_header) (map (λ word. word.items) words.now)) }
{
    let mut key = Vec::new(alloc);
    for word in words {
        let column = column_said(alloc, word, is_json, has_header)?;
        match key.push(column) {
            Ok(()) => {}
            Err(_) => return Err(ToolError::Memory),
        }
    }
    Ok(key)
}

/// Gives the columns of the key, of which objects need one, and of the weight that `words` name
/// ([`ToolError::BadColumn`]).
fn columns_said(
    alloc: Global,
    words: &LayoutWords,
) -> Result<(Vec<Column>, Option<Column>), ToolError>
    ensures key { IfOk result (λ columns.
        NamesKey (naming words.now) (key_words words.now) columns.0.items) }
    ensures weight { IfOk result (λ columns.
        NamesWeight (naming words.now) (weight_word words.now) columns.1) }
    ensures refused { IfErr result (ColumnsRefused words.now) }
{
    let is_json = words.format.is_json();
    if is_json && words.key.is_empty() {
        return Err(ToolError::BadColumn);
    }
    let key = key_of(alloc, &words.key, is_json, words.has_header)?;
    match &words.weight {
        None => Ok((key, None)),
        Some(word) => {
            let weight = column_said(alloc, word, is_json, words.has_header)?;
            Ok((key, Some(weight)))
        }
    }
}

/// Gives the byte between fields that `words` say.
fn delimiter_said(words: &LayoutWords) -> Option<u8>
    ensures { result ≡ byte_said words.now }
{
    match &words.delimiter {
        Some(word) => match word.as_slice() {
            b"\"" if !words.format.has_quotes() => Some(b'"'),
            word => delimiter_of(word),
        },
        None => match words.format {
            Format::Squeezed => Some(b' '),
            Format::Csv | Format::Unquoted | Format::Lines | Format::Json => Some(b','),
        },
    }
}

/// Gives what bad records count as by `words`, which is a key ([`ToolError::BadKey`], with number
/// 1).
fn bad_as_said(alloc: Global, words: &LayoutWords) -> Result<Option<BadAs>, ToolError>
    ensures said { IfOk result (λ bad.
        option_map (λ bad. bad.key.items) bad ≡ bad_word words.now) }
    ensures fits { IfOk result (λ _. IfSome (bad_word words.now) HasKeyLength) }
    ensures refused { IfErr result (LayoutRefused words.now) }
{
    let Some(key) = &words.bad_as else {
        return Ok(None);
    };
    let (number, len) = (1, key.len());
    if len == 0 {
        let cause = KeyCause::Empty;
        return Err(ToolError::BadKey { number, cause });
    }
    if len > MAX_KEY_LEN {
        let cause = KeyCause::TooLong;
        return Err(ToolError::BadKey { number, cause });
    }
    Ok(Some(BadAs::new(alloc, key.as_slice())?))
}

/// Gives the part of the key's last column that counts by `words`.
fn key_part(alloc: Global, words: &LayoutWords) -> Result<KeyPart, AllocError>
    ensures { IfOk result (λ part. part_said part ≡ (words.now.until.items, words.now.prefix)) }
{
    Ok(KeyPart {
        until: Vec::from_slice(alloc, words.until.as_slice())?,
        prefix: match words.prefix {
            Some(count) => Some(count as usize),
            None => None,
        },
    })
}

/// Gives the layout that `words` say. The delimiter is tested first, then the key's columns, of
/// which objects need one, then the weight's ([`ToolError::BadDelimiter`],
/// [`ToolError::BadColumn`]), and then the key that bad records count as ([`ToolError::BadKey`]).
/// Keys are hashed by the words that all runs have.
pub fn layout_of(alloc: Global, words: &LayoutWords) -> Result<Layout, ToolError>
    ensures layout { IfOk result (SaysLayout words.now) }
    ensures refused { IfErr result (LayoutRefused words.now) }
{
    let Some(delimiter) = delimiter_said(words) else {
        return Err(ToolError::BadDelimiter);
    };
    let (key, weight) = columns_said(alloc, words)?;
    let bad_as = bad_as_said(alloc, words)?;
    Ok(Layout {
        format: words.format,
        delimiter,
        has_header: words.has_header,
        key,
        weight,
        part: key_part(alloc, words)?,
        allow_zero: words.allow_zero,
        decimals: words.decimals,
        bad_as,
        hash: KeyHash::fixed(),
    })
}
