//! Where the key and the weight of a record stand.

ghost use Rattle.std.specs.Prelude.{◌≡◌, ◌++◌, option_map, Some, None, Ok, Err, IfOk, IfErr, IfSome};
ghost use Rattle.csv.specs.Records.{fields_of};
ghost use Rattle.hh_records.specs.Layouts.{ColumnsRefused, IsPlain, NamesColumn, chosen_columns, columns_among, columns_in};
ghost use Rattle.hh_records.specs.Layouts.{delimiter_of, key_places, member_names, name_of, named_from};
ghost use Rattle.hh_records.specs.Layouts.{place_of, places_of, weight_name};
ghost use Rattle.std.specs.Option.{option_to_list};

use crate::format::{Format, KeyPart, Spare, fields_by};
use crate::records::number_in;
use csv::ByteRecord;
use hh_faults::TextError;
use hh_json::MemberName;
use hh_stream::KeyHash;
use std::alloc::{AllocError, Global};
use std::marker::Model;
use std::sync::Arc;
use std::sync::atomic::{AtomicU64, Ordering};

/// A column of records.
#[derive(Drop)]
pub enum Column {
    /// The column with this number, from 1 on.
    Number(usize),
    /// The first column that the header gives this name.
    Name(Vec<u8>),
}

impl MemberName for Column {
    ghost said = { name_of };

    fn name(&self) -> Option<&[u8]> {
        match self {
            Column::Name(name) => Some(name.as_slice()),
            Column::Number(_) => None,
        }
    }
}

/// What each record counts as that fails a test: an item of a key, of weight 1.
///
/// A record is refused all the same where the total of all weights would be too large.
#[derive(Drop)]
pub struct BadAs {
    /// The key, of 1 to 4,096 bytes.
    pub key: Vec<u8>,
    /// How many such records the last reading had. No answer depends on it.
    pub count: Arc<AtomicU64, Global>,
}

impl BadAs {
    /// Counts bad records as items of `key`.
    pub fn new(alloc: Global, key: &[u8]) -> Result<BadAs, AllocError>
        ensures { IfOk result (λ bad. bad.key.items ≡ key.now) }
    {
        Ok(BadAs {
            key: Vec::from_slice(alloc, key)?,
            count: Arc::new(alloc, AtomicU64::new(0))?,
        })
    }
}

/// How records are laid out in the texts that they are read from.
#[derive(Drop)]
pub struct Layout {
    /// How a record is written.
    pub format: Format,
    /// The byte between two fields.
    pub delimiter: u8,
    /// The first record of each text names the columns, and is no record. An empty text has none.
    pub has_header: bool,
    /// The columns of the key. Several are one key: the text that `csv` writes of them. None is
    /// column 1 or, where the weight has no column either, says that a record is a key and, where
    /// it has a second field, its weight.
    pub key: Vec<Column>,
    /// The column of the weight. Where none is named beside a key's, each record weighs 1.
    pub weight: Option<Column>,
    /// The part of the key's last field that counts.
    pub part: KeyPart,
    /// A record of weight 0 adds nothing and is no fault, and `-` is such a weight.
    pub allow_zero: bool,
    /// The most digits that a weight has after a point. It counts in units of the last of them:
    /// with 3 the weight `0.125` is 125, and 1 is 1,000.
    pub decimals: u8,
    /// What each record counts as that fails a test. Where it is nothing, such a record is refused.
    pub bad_as: Option<BadAs>,
    /// How the keys are hashed where they are looked up. No answer depends on it: it decides how
    /// fast keys are found that others chose.
    pub hash: KeyHash,
}

impl Layout {
    /// A key and, after a comma, its weight, as [`read_stream`](crate::read_stream) reads them.
    /// Keys are hashed by the words that all runs have.
    pub fn plain(alloc: Global) -> Layout
        ensures { IsPlain result }
    {
        Layout::with_hasher(alloc, KeyHash::fixed())
    }

    /// Gives the name of the weight's column, where it has one.
    pub(crate) fn weight_name(&self) -> Option<&[u8]>
        ensures { option_map (λ name. name.now) result ≡ weight_name self.now.weight }
    {
        match &self.weight {
            Some(column) => column.name(),
            None => None,
        }
    }

    /// Notes that a reading of all records had this `count` of bad ones.
    pub fn set_bad_count(&self, count: u64) {
        if let Some(bad_as) = &self.bad_as {
            bad_as.count.store(count, Ordering::SeqCst);
        }
    }

    /// Notes that a piece of the records had this `count` of bad ones, in place of the `last` count
    /// that was noted of it.
    pub fn replace_bad_count(&self, last: u64, count: u64) {
        if let Some(bad_as) = &self.bad_as {
            bad_as
                .count
                .fetch_add(count.wrapping_sub(last), Ordering::SeqCst);
        }
    }

    /// [`plain`](Layout::plain), with keys hashed by `hash`.
    pub fn with_hasher(alloc: Global, hash: KeyHash) -> Layout
        ensures plain { IsPlain result }
        ensures hash { result.hash ≡ hash }
    {
        Layout {
            format: Format::Csv,
            delimiter: b',',
            has_header: false,
            key: Vec::new(alloc),
            weight: None,
            part: KeyPart::whole(alloc),
            allow_zero: false,
            decimals: 0,
            bad_as: None,
            hash,
        }
    }
}

/// Gives the byte that `word` names: itself, or a tab for `\t`. No field ends with a quote, CR or
/// LF.
pub fn delimiter_of(word: &[u8]) -> Option<u8>
    ensures { result ≡ delimiter_of word.now }
{
    match word {
        b"\\t" => Some(b'\t'),
        [b'"' | b'\r' | b'\n'] => None,
        [byte] => Some(*byte),
        _ => None,
    }
}

/// Finds the column that `word` names: digits alone are its number, from 1 on, and another word is
/// a name, which only a header has. Zeros in front count for nothing, and a number beyond `u64` is
/// the largest one, a column that no record has.
pub fn column_of(alloc: Global, word: &[u8], has_header: bool) -> Result<Option<Column>, AllocError>
    ensures named { IfOk result (λ column. IfSome column (NamesColumn has_header word.now)) }
    ensures unnamed { result ≡ Ok None
        → (column : Column) → NamesColumn has_header word.now column → ⊥ }
{
    match number_in(word, word.len()) {
        Some(0) => Ok(None),
        Some(number) => Ok(Some(Column::Number(number as usize))),
        None if has_header => Ok(Some(Column::Name(Vec::from_slice(alloc, word)?))),
        None => Ok(None),
    }
}

/// The places of columns, from 0 on.
#[derive(Drop)]
pub struct ColumnIndices {
    pub key: Vec<usize>,
    pub weight: Option<usize>,
}

/// Which columns of one text a layout reads, by the header that the text has. In contracts they are
/// the places, or nothing where a record is a key and, where it has a second field, its weight.
#[derive(Drop)]
pub struct Columns {
    indices: Option<ColumnIndices>,
}

impl Model for Columns {
    ghost use Rattle.hh_records.specs.Layouts.{Columns, chosen_columns};

    ghost Value = { Columns };

    ghost view = { λ columns. chosen_columns columns.indices };
}

impl Columns {
    /// Finds the columns that `layout` names in a text with this `header`, which has no fields
    /// where the text is to have none.
    pub fn by_header(
        alloc: Global,
        layout: &Layout,
        header: &ByteRecord,
    ) -> Result<Columns, TextError>
        ensures columns { IfOk result (λ columns.
            columns_in layout.now (fields_of header.now) ≡ Some columns) }
        ensures refused { IfErr result
            (ColumnsRefused layout.now (columns_in layout.now (fields_of header.now))) }
    {
        let indices = columns_in(alloc, layout, header)?;
        Ok(Columns { indices })
    }

    /// Gives the places of the columns, where a layout names some.
    pub fn indices(&self) -> Option<&ColumnIndices>
        ensures { option_map (λ c. (c.now.key.items, c.now.weight)) result ≡ self.now }
    {
        self.indices.as_ref()
    }

    /// Copies the columns.
    pub fn copy(&self, alloc: Global) -> Result<Columns, AllocError>
        ensures { IfOk result (λ copy. copy ≡ self.now) }
    {
        let Some(columns) = &self.indices else {
            return Ok(Columns { indices: None });
        };
        Ok(Columns {
            indices: Some(ColumnIndices {
                key: Vec::from_slice(alloc, columns.key.as_slice())?,
                weight: columns.weight,
            }),
        })
    }
}

/// Finds the place of the first field of `header` like `name`.
fn named(header: &ByteRecord, name: &[u8]) -> Option<usize>
    ensures { result ≡ named_from name.now 0 (fields_of header.now) }
{
    for place in 0..header.len() {
        match header.get(place) {
            Some(field) => {
                if field == name {
                    return Some(place);
                }
            }
            None => return None,
        }
    }
    None
}

/// Finds the place of `column`, from 0 on.
fn place_of(header: &ByteRecord, column: &Column) -> Option<usize>
    ensures { result ≡ place_of (fields_of header.now) column.now }
{
    match column {
        Column::Number(number) => {
            if *number == 0 {
                return None;
            }
            Some(*number - 1)
        }
        Column::Name(name) => named(header, name.as_slice()),
    }
}

/// Finds the places of `columns`, where all are there.
fn places_of(
    alloc: Global,
    header: &ByteRecord,
    columns: &[Column],
) -> Result<Option<Vec<usize>>, AllocError>
    ensures { IfOk result (λ places. option_map (λ p. p.items) places
        ≡ places_of (fields_of header.now) columns.now) }
{
    let mut places = Vec::new(alloc);
    for column in columns {
        let Some(place) = place_of(header, column) else {
            return Ok(None);
        };
        places.push(place)?;
    }
    Ok(Some(places))
}

/// Finds the places of the key's `columns`: of none, that of column 1.
fn key_places(
    alloc: Global,
    header: &ByteRecord,
    columns: &[Column],
) -> Result<Option<Vec<usize>>, AllocError>
    ensures { IfOk result (λ places. option_map (λ p. p.items) places
        ≡ key_places (fields_of header.now) columns.now) }
{
    if columns.is_empty() {
        let mut places = Vec::new(alloc);
        places.push(0)?;
        return Ok(Some(places));
    }
    places_of(alloc, header, columns)
}

/// Finds the places of the columns that `layout` names among the fields of `header`, or nothing
/// where it names none.
fn columns_among(
    alloc: Global,
    layout: &Layout,
    header: &ByteRecord,
) -> Result<Option<ColumnIndices>, TextError>
    ensures columns { IfOk result (λ columns.
        columns_among layout.now (fields_of header.now) ≡ Some (chosen_columns columns)) }
    ensures refused { IfErr result
        (ColumnsRefused layout.now (columns_among layout.now (fields_of header.now))) }
{
    if layout.key.is_empty() && layout.weight.is_none() {
        return Ok(None);
    }
    let weight = match &layout.weight {
        None => None,
        Some(column) => match place_of(header, column) {
            None => return Err(TextError::NoColumn),
            place => place,
        },
    };
    match key_places(alloc, header, layout.key.as_slice()) {
        Ok(Some(key)) => Ok(Some(ColumnIndices { key, weight })),
        Ok(None) => Err(TextError::NoColumn),
        Err(AllocError) => Err(TextError::Memory),
    }
}

/// Gives a record of the names of the members that the columns of `layout` name, that of the weight
/// after those of the key.
fn name_row(alloc: Global, layout: &Layout) -> Result<ByteRecord, AllocError>
    ensures { IfOk result (λ row. fields_of row
        ≡ (member_names layout.now).0 ++ option_to_list (member_names layout.now).1) }
{
    let mut row = ByteRecord::new(alloc);
    for column in &layout.key {
        if let Some(name) = column.name() {
            row.push_field(name)?;
        }
    }
    if let Some(name) = layout.weight_name() {
        row.push_field(name)?;
    }
    Ok(row)
}

/// Finds the places of the columns that `layout` names. Of objects the fields are the members that
/// they name, and else those of `header`.
fn columns_in(
    alloc: Global,
    layout: &Layout,
    header: &ByteRecord,
) -> Result<Option<ColumnIndices>, TextError>
    ensures columns { IfOk result (λ columns.
        columns_in layout.now (fields_of header.now) ≡ Some (chosen_columns columns)) }
    ensures refused { IfErr result
        (ColumnsRefused layout.now (columns_in layout.now (fields_of header.now))) }
{
    if layout.format.is_json() {
        return columns_among(alloc, layout, &name_row(alloc, layout)?);
    }
    let mut spare = Spare::new(alloc);
    let fields = fields_by(alloc, layout, header, &mut spare)?;
    columns_among(alloc, layout, fields)
}
