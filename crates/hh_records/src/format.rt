//! How lines are records, and which part of a field is the key.

ghost use Rattle.std.specs.Prelude.{option_map, ◌≡◌, ◌∷◌, ◌++◌, [], map, not, take, true, IfOk, OnOk, if◌then◌else◌};
ghost use Rattle.std.specs.List.{filter, position_or_len};
ghost use Rattle.bstr.specs.Bytes.{is_in};
ghost use Rattle.csv.specs.Records.{fields_of, partial_of};
ghost use Rattle.hh_records.specs.Formats.{byte_between, fields_by, has_quotes, is_empty, is_json, is_whole_field};
ghost use Rattle.hh_records.specs.Formats.{line_of, part_of, part_said};
ghost use Rattle.hh_records.specs.Layouts.{member_names};
ghost use Rattle.hh_records.specs.declared.format.Format.TheVariants.{Json};

use crate::layout::Layout;
use bstr::{ByteSlice, join};
use csv::ByteRecord;
use hh_json::members;
use json::Scratch;
use std::alloc::{AllocError, Global};

/// How a record is written.
#[derive(Clone, Copy, Debug, PartialEq, Eq)]
pub enum Format {
    /// As CSV has it: a field may be quoted, and then holds delimiters and line ends.
    Csv,
    /// A quote is a byte as any other. Fields end at a delimiter, and records where lines do.
    Unquoted,
    /// [`Unquoted`](Format::Unquoted), where several delimiters are one, and those at the ends of a
    /// line are none, as in columns that are padded with spaces.
    Squeezed,
    /// A line is one field.
    Lines,
    /// A line is a JSON object, and the members that columns name are its fields.
    Json,
}

impl Format {
    /// Whether fields may be quoted.
    pub fn has_quotes(self) -> bool
        ensures { result ≡ has_quotes self }
    {
        match self {
            Format::Csv => true,
            Format::Unquoted | Format::Squeezed | Format::Lines | Format::Json => false,
        }
    }

    /// Whether records are JSON objects.
    pub fn is_json(self) -> bool
        ensures { result ≡ is_json self }
    {
        match self {
            Format::Json => true,
            Format::Csv | Format::Unquoted | Format::Squeezed | Format::Lines => false,
        }
    }

    /// The byte at which `csv` cuts a record, where `delimiter` stands between its fields.
    pub fn byte_between(self, delimiter: u8) -> u8
        ensures { result ≡ byte_between self delimiter }
    {
        match self {
            Format::Csv | Format::Unquoted | Format::Squeezed => delimiter,
            Format::Lines | Format::Json => 0,
        }
    }
}

/// Room for the fields of a record, which serves one record after the other.
#[derive(Drop)]
pub(crate) struct Spare {
    fields: ByteRecord,
    scratch: Scratch,
}

impl Spare {
    pub(crate) fn new(alloc: Global) -> Spare {
        Spare {
            fields: ByteRecord::new(alloc),
            scratch: Scratch::new(alloc),
        }
    }
}

/// The part of a field that is the key.
#[derive(Debug, Drop)]
pub struct KeyPart {
    /// It ends before the first of these bytes, where the field has one.
    pub until: Vec<u8>,
    /// It has at most this many bytes.
    pub prefix: Option<usize>,
}

impl KeyPart {
    /// The whole field.
    pub fn whole(alloc: Global) -> KeyPart
        ensures { is_whole_field (part_said result) ≡ true }
    {
        KeyPart {
            until: Vec::new(alloc),
            prefix: None,
        }
    }

    /// Whether this is the whole of any field.
    pub fn is_whole(&self) -> bool
        ensures { result ≡ is_whole_field (part_said self.now) }
    {
        self.until.is_empty() && self.prefix.is_none()
    }

    /// Gives this part of `field`.
    pub fn of<'f>(&self, field: &'f [u8]) -> &'f [u8]
        ensures { result.now ≡ part_of (part_said self.now) field.now }
    {
        let field = before(field, self.until.as_slice());
        match self.prefix {
            Some(most) => &field[..most.min(field.len())],
            None => field,
        }
    }
}

/// Gives `field`, of which a `part` counts where it `is_last` of a key.
pub(crate) fn part_of_last<'f>(part: &KeyPart, is_last: bool, field: &'f [u8]) -> &'f [u8]
    ensures { result.now ≡ (if is_last then part_of (part_said part.now) field.now else field.now) }
{
    if is_last { part.of(field) } else { field }
}

/// Gives what comes before the first of the bytes `until` in `field`, or all of it.
fn before<'f>(field: &'f [u8], until: &[u8]) -> &'f [u8]
    ensures { result.now ≡ take (position_or_len (is_in until.now) field.now) field.now }
{
    match field.find_byteset(until) {
        Some(end) => &field[..end],
        None => field,
    }
}

/// Puts `field` after `fields`, if it is not empty.
fn push_filled(fields: &mut ByteRecord, field: &[u8]) -> Result<(), AllocError>
    requires whole { partial_of fields.old ≡ [] }
    ensures fields { OnOk result (fields_of fields.new
        ≡ fields_of fields.old ++ filter (λ f. not (is_empty f)) (field.now ∷ [])) }
    ensures whole { OnOk result (partial_of fields.new ≡ []) }
{
    if field.is_empty() {
        return Ok(());
    }
    fields.push_field(field)
}

/// Puts the fields of `row` that are not empty into `fields`.
fn squeeze(row: &ByteRecord, fields: &mut ByteRecord) -> Result<(), AllocError>
    ensures { OnOk result (fields_of fields.new
        ≡ filter (λ f. not (is_empty f)) (fields_of row.now)) }
{
    fields.clear();
    for place in 0..row.len() {
        let Some(field) = row.get(place) else {
            return Ok(());
        };
        push_filled(fields, field)?;
    }
    Ok(())
}

/// Gives the line that `csv` cut into the fields of `row`, where it is cut at a byte of no meaning.
fn line_of(alloc: Global, row: &ByteRecord) -> Result<Vec<u8>, AllocError>
    ensures { IfOk result (λ line. line.items ≡ line_of (fields_of row.now)) }
{
    Ok(join(alloc, b"\0", row)?)
}

/// Puts the line that is `row` into `fields` as one field.
fn rejoin(alloc: Global, row: &ByteRecord, fields: &mut ByteRecord) -> Result<(), AllocError>
    ensures { OnOk result (fields_of fields.new ≡ line_of (fields_of row.now) ∷ []) }
{
    fields.clear();
    fields.push_field(line_of(alloc, row)?.as_slice())
}

/// Puts the members that the columns of `layout` name of the object that is `row` into `spare`.
fn read_members(
    alloc: Global,
    layout: &Layout,
    row: &ByteRecord,
    spare: &mut Spare,
) -> Result<(), AllocError>
    ensures { OnOk result (fields_of spare.new.fields
        ≡ fields_by Json (member_names layout.now) (fields_of row.now)) }
{
    let Spare { fields, scratch } = spare;
    let names = layout.key.as_slice();
    let weight = layout.weight_name();
    match row.get(0) {
        Some(line) if row.len() == 1 => members(alloc, line, names, weight, scratch, fields),
        _ => {
            let line = line_of(alloc, row)?;
            members(alloc, line.as_slice(), names, weight, scratch, fields)
        }
    }
}

/// Gives the fields of a record of `layout` that `csv` reads as `row`. They are put into `spare`
/// where they are others than those of `row`.
pub(crate) fn fields_by<'r>(
    alloc: Global,
    layout: &Layout,
    row: &'r ByteRecord,
    spare: &'r mut Spare,
) -> Result<&'r ByteRecord, AllocError>
    ensures { IfOk result (λ fields.
        fields_of fields.now
        ≡ fields_by layout.now.format (member_names layout.now) (fields_of row.now)) }
{
    match layout.format {
        Format::Csv | Format::Unquoted => Ok(row),
        Format::Squeezed => {
            squeeze(row, &mut spare.fields)?;
            Ok(&spare.fields)
        }
        Format::Lines => {
            if row.len() == 1 {
                return Ok(row);
            }
            rejoin(alloc, row, &mut spare.fields)?;
            Ok(&spare.fields)
        }
        Format::Json => {
            read_members(alloc, layout, row, spare)?;
            Ok(&spare.fields)
        }
    }
}
