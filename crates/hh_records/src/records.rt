//! Records of keys and weights, read one by one.

ghost use Rattle.std.specs.Prelude.{ℕ, length, map, Err, Some, ◌≡◌, ◌+◌, ◌<◌, ◌≤◌, ◌^◌, false, true, min, Ok, MatchOption, IfSome, IfOk, IfErr, OnOk, option_map};
ghost use Rattle.csv.specs.Reading.{reader_config, reader_state, source_of, stops_reader, strip_bom};
ghost use Rattle.csv.specs.declared.parser.State.TheVariants as st;
ghost use Rattle.csv.specs.Records.{fields_of};
ghost use Rattle.csv.specs.Writing.{default_writer, row_body};
ghost use Rattle.hh_stream.specs.Weights.{max_key_len, max_total};
ghost use Rattle.hh_stream.specs.Digits.{is_number, value_of};
ghost use Rattle.hh_stream.specs.Taking.{Takes};
ghost use Rattle.hh_records.specs.Formats.{part_said, with_part};
ghost use Rattle.hh_records.specs.Layouts.{parts_by};
ghost use Rattle.hh_records.specs.Layouts.{IsReady, RecordRefused, RowsRefused, adds, adds_instead, added_after, adds_itself, bad_key, config_of, fields_at, is_hyphen, items_after, items_of_weight, key_of, parts_at, rows_in, rows_left, weight_at, weight_by};
ghost use Rattle.hh_records.specs.Streams.{fault_of, parts_of};

use crate::decimals::{scaled, units_in};
use crate::format::{KeyPart, Spare, fields_by, part_of_last};
use crate::layout::{Columns, Layout};
use csv::{ByteRecord, ErrorKind, Reader, ReaderBuilder, WriterBuilder};
use hh_faults::{BadRecordCause, TextError};
use hh_stream::{MAX_KEY_LEN, MAX_TOTAL, TakeItems};
use std::alloc::{AllocError, Global};
use std::io::Read;

/// Reads the number that 1 to `most` digits write, at most the largest `u64`.
pub fn number_in(field: &[u8], most: usize) -> Option<u64>
    ensures number { MatchOption result
        (is_number most field.now ≡ false)
        (λ number. (is_number most field.now ≡ true)
        × (number ≡ min (value_of field.now) u64.MAX)) }
    ensures below { IfSome result (λ number. number < 10 ^ most) }
{
    if field.is_empty() || field.len() > most {
        return None;
    }
    let mut value = 0u64;
    for digit in field {
        if !digit.is_ascii_digit() {
            return None;
        }
        value = value
            .saturating_mul(10)
            .saturating_add(u64::from(*digit - b'0'));
    }
    Some(value)
}

/// Whether a field is a hyphen alone.
fn is_hyphen(field: &[u8]) -> bool
    ensures { result ≡ is_hyphen field.now }
{
    field.len() == 1 && field[0] == b'-'
}

/// The weight that a record's field writes, in the units of a layout, and that of 1 where there is
/// none.
fn weight_in(field: Option<&[u8]>, layout: &Layout) -> Option<u64>
    ensures { result ≡ option_map (λ weight. min weight u64.MAX)
        (weight_by layout.now (option_map (λ f. f.now) field.entry)) }
{
    match field {
        None => Some(scaled(1, layout.decimals)),
        Some(field) => {
            if layout.allow_zero && is_hyphen(field) {
                return Some(0);
            }
            units_in(field, layout.decimals)
        }
    }
}

/// The key and the weight's field of a record of one or two fields.
fn parts_of(row: &ByteRecord) -> Option<(&[u8], Option<&[u8]>)>
    ensures { option_map (λ parts. (parts.0.now, option_map (λ field. field.now) parts.1)) result
        ≡ parts_of (fields_of row.now) }
{
    if row.len() == 0 || row.len() > 2 {
        return None;
    }
    let key = row.get(0)?;
    Some((key, row.get(1)))
}

/// Gives the weight that a record adds to its key, which is 0 only where that is allowed, or the
/// first test that the record fails.
#[inline(always)]
fn weight_added(key: &[u8], field: Option<&[u8]>, layout: &Layout) -> Result<u64, BadRecordCause>
    ensures weight { IfOk result (λ weight. (w : ℕ) × (weight ≡ min w u64.MAX)
        × (adds_itself layout.now (Some (key.now, option_map (λ f. f.now) field.entry))
        ≡ Ok (items_of_weight key.now w))) }
    ensures some { IfOk result (λ _. 0 < length key.now) }
    ensures few { IfOk result (λ _. length key.now ≤ max_key_len) }
    ensures refused { IfErr result (λ cause. adds_itself layout.now
        (Some (key.now, option_map (λ f. f.now) field.entry)) ≡ Err cause) }
{
    if key.is_empty() {
        return Err(BadRecordCause::EmptyKey);
    }
    if key.len() > MAX_KEY_LEN {
        return Err(BadRecordCause::KeyTooLong);
    }
    let Some(weight) = weight_in(field, layout) else {
        return Err(BadRecordCause::BadWeight);
    };
    if weight == 0 && !layout.allow_zero {
        return Err(BadRecordCause::ZeroWeight);
    }
    Ok(weight)
}

/// Hands on an item of `key` that record `number` adds, or nothing where its `weight` is 0. It is
/// refused where the total would be too large.
#[inline(always)]
fn take_weight<T: TakeItems>(
    alloc: Global,
    taker: &mut T,
    number: u64,
    key: &[u8],
    weight: u64,
) -> Result<(), TextError>
    requires some { 0 < length key.now }
    requires few { length key.now ≤ max_key_len }
    requires bounded { T.weight_taken taker.old ≤ max_total }
    ensures taken { (w : ℕ) → weight ≡ min w u64.MAX → OnOk result
        (Takes T.with_item T.weight_taken taker.old taker.new (λ xs.
        added_after (T.weight_taken taker.old) (Ok (items_of_weight key.now w)) ≡ Ok xs)) }
    ensures bounded { OnOk result (T.weight_taken taker.new ≤ max_total) }
    ensures refused { (w : ℕ) → weight ≡ min w u64.MAX → IfErr result (RecordRefused number
        (added_after (T.weight_taken taker.old) (Ok (items_of_weight key.now w)))) }
{
    if weight > MAX_TOTAL - taker.total() {
        return Err(TextError::BadRecord {
            number,
            cause: BadRecordCause::TotalTooLarge,
        });
    }
    if weight == 0 {
        return Ok(());
    }
    Ok(taker.take(alloc, key, weight)?)
}

/// Hands on what record `number` adds that fails a test of this `cause`: where bad records count as
/// a key, an item of it, of weight 1, and then counts one more `bad` record.
#[cold]
fn take_bad<T: TakeItems>(
    alloc: Global,
    taker: &mut T,
    number: u64,
    cause: BadRecordCause,
    bad: &mut u64,
    layout: &Layout,
) -> Result<(), TextError>
    requires bounded { T.weight_taken taker.old ≤ max_total }
    ensures taken { OnOk result
        (Takes T.with_item T.weight_taken taker.old taker.new (λ xs.
        added_after (T.weight_taken taker.old) (adds_instead layout.now (bad_key layout.now) cause)
        ≡ Ok xs)) }
    ensures bounded { OnOk result (T.weight_taken taker.new ≤ max_total) }
    ensures refused { IfErr result (RecordRefused number
        (added_after (T.weight_taken taker.old)
        (adds_instead layout.now (bad_key layout.now) cause))) }
{
    let Some(bad_as) = &layout.bad_as else {
        return Err(TextError::BadRecord { number, cause });
    };
    let key = bad_as.key.as_slice();
    match weight_added(key, None, layout) {
        Ok(weight) => {
            take_weight(alloc, taker, number, key, weight)?;
            *bad = bad.saturating_add(1);
            Ok(())
        }
        Err(cause) => Err(TextError::BadRecord { number, cause }),
    }
}

/// Hands on what record `number` adds, of this key and weight's field, or one that hasn't the
/// fields for them. It counts one more `bad` record where it counts as an item of another key.
#[inline(always)]
pub fn take_parts<T: TakeItems>(
    alloc: Global,
    taker: &mut T,
    number: u64,
    parts: Option<(&[u8], Option<&[u8]>)>,
    bad: &mut u64,
    layout: &Layout,
) -> Result<(), TextError>
    requires bounded { T.weight_taken taker.old ≤ max_total }
    ensures taken { OnOk result
        (Takes T.with_item T.weight_taken taker.old taker.new (λ xs.
        adds layout.now (T.weight_taken taker.old)
        (option_map (λ p. (p.0.now, option_map (λ f. f.now) p.1)) parts.entry) ≡ Ok xs)) }
    ensures bounded { OnOk result (T.weight_taken taker.new ≤ max_total) }
    ensures refused { IfErr result (RecordRefused number
        (adds layout.now (T.weight_taken taker.old)
        (option_map (λ p. (p.0.now, option_map (λ f. f.now) p.1)) parts.entry))) }
{
    let Some((key, field)) = parts else {
        return take_bad(
            alloc,
            taker,
            number,
            BadRecordCause::FieldCount,
            bad,
            layout,
        );
    };
    match weight_added(key, field, layout) {
        Ok(weight) => take_weight(alloc, taker, number, key, weight),
        Err(cause) => take_bad(alloc, taker, number, cause, bad, layout),
    }
}

/// The text of the fields of a record at `places`, of the last one a `part`, as `csv` writes it,
/// where the record has them.
fn joined_key(
    alloc: Global,
    row: &ByteRecord,
    places: &[usize],
    part: &KeyPart,
) -> Result<Option<Vec<u8>>, AllocError>
    ensures { IfOk result (λ key. option_map (λ k. k.items) key
        ≡ option_map (λ fs. row_body default_writer (with_part (part_said part.now) fs))
        (fields_at (fields_of row.now) places.now)) }
{
    let mut writer = WriterBuilder::new().from_writer(Vec::new(alloc));
    for i in 0..places.len() {
        let Some(field) = row.get(places[i]) else {
            return Ok(None);
        };
        let field = part_of_last(part, i + 1 == places.len(), field);
        match writer.write_field(field) {
            Ok(()) => {}
            Err(_) => return Err(AllocError),
        }
    }
    match writer.into_inner() {
        Ok(text) => Ok(Some(text)),
        Err(_) => Err(AllocError),
    }
}

/// The weight's field of a record, where it has the field or none is wanted.
fn weight_field(row: &ByteRecord, place: Option<usize>) -> Option<Option<&[u8]>>
    ensures { option_map (λ field. option_map (λ f. f.now) field) result
        ≡ weight_at (fields_of row.now) place }
{
    match place {
        None => Some(None),
        Some(place) => match row.get(place) {
            Some(field) => Some(Some(field)),
            None => None,
        },
    }
}

/// The key of a record that has a column for it at each of `places`. Of the last one a `part`
/// counts. The key of several columns is put into `joined`.
#[inline(always)]
fn key_at<'r>(
    alloc: Global,
    row: &'r ByteRecord,
    places: &[usize],
    part: &KeyPart,
    joined: &'r mut Vec<u8>,
) -> Result<Option<&'r [u8]>, AllocError>
    ensures { IfOk result (λ key. option_map (λ k. k.now) key
        ≡ option_map (λ fs. key_of (with_part (part_said part.now) fs))
        (fields_at (fields_of row.now) places.now)) }
{
    if places.len() == 1 {
        return match row.get(places[0]) {
            Some(field) => Ok(Some(part.of(field))),
            None => Ok(None),
        };
    }
    match joined_key(alloc, row, places, part)? {
        Some(key) => {
            *joined = key;
            Ok(Some(joined.as_slice()))
        }
        None => Ok(None),
    }
}

/// The key and the weight's field of a record of `layout`, where it has the fields for them: at the
/// places of `columns` or, where there are none, by their number.
#[inline(always)]
fn parts_by<'r>(
    alloc: Global,
    row: &'r ByteRecord,
    layout: &Layout,
    columns: &Columns,
    joined: &'r mut Vec<u8>,
) -> Result<Option<(&'r [u8], Option<&'r [u8]>)>, AllocError>
    ensures { IfOk result (λ parts.
        option_map (λ p. (p.0.now, option_map (λ f. f.now) p.1)) parts
        ≡ parts_by columns.now (part_said layout.now.part) (fields_of row.now)) }
{
    let Some(columns) = columns.indices() else {
        return match parts_of(row) {
            Some((key, field)) => Ok(Some((layout.part.of(key), field))),
            None => Ok(None),
        };
    };
    let Some(field) = weight_field(row, columns.weight) else {
        return Ok(None);
    };
    match key_at(alloc, row, columns.key.as_slice(), &layout.part, joined)? {
        Some(key) => Ok(Some((key, field))),
        None => Ok(None),
    }
}

/// Room for what is made of a record, which serves one record after the other.
#[derive(Drop)]
pub struct Room {
    alloc: Global,
    spare: Spare,
    joined: Vec<u8>,
}

impl Room {
    pub fn new(alloc: Global) -> Room {
        Room {
            alloc,
            spare: Spare::new(alloc),
            joined: Vec::new(alloc),
        }
    }

    /// The key and the weight's field of `row`, where it has the fields for them.
    #[inline(always)]
    fn parts<'r>(
        &'r mut self,
        row: &'r ByteRecord,
        layout: &Layout,
        columns: &Columns,
    ) -> Result<Option<(&'r [u8], Option<&'r [u8]>)>, AllocError>
        ensures { IfOk result (λ parts.
            option_map (λ p. (p.0.now, option_map (λ f. f.now) p.1)) parts
            ≡ parts_at layout.now columns.now (fields_of row.now)) }
    {
        let Room {
            alloc,
            spare,
            joined,
        } = self;
        let fields = fields_by(*alloc, layout, row, spare)?;
        parts_by(*alloc, fields, layout, columns, joined)
    }
}

/// Hands on what the record adds that has these fields and this `number`, and counts it where it is
/// `bad` and counts as the key of the layout.
#[inline(always)]
pub fn take_row<T: TakeItems>(
    taker: &mut T,
    room: &mut Room,
    row: &ByteRecord,
    columns: &Columns,
    number: u64,
    bad: &mut u64,
    layout: &Layout,
) -> Result<(), TextError>
    requires bounded { T.weight_taken taker.old ≤ max_total }
    ensures taken { OnOk result
        (Takes T.with_item T.weight_taken taker.old taker.new (λ xs.
        adds layout.now (T.weight_taken taker.old)
        (parts_at layout.now columns.now (fields_of row.now)) ≡ Ok xs)) }
    ensures bounded { OnOk result (T.weight_taken taker.new ≤ max_total) }
    ensures refused { IfErr result (RecordRefused number
        (adds layout.now (T.weight_taken taker.old)
        (parts_at layout.now columns.now (fields_of row.now)))) }
{
    let alloc = room.alloc;
    let parts = room.parts(row, layout, columns)?;
    take_parts(alloc, taker, number, parts, bad, layout)
}

/// The error that a fault of `csv`'s reader is: its want of memory, or a failure of the reader
/// underneath.
fn fault_of(fault: &ErrorKind) -> TextError
    requires { stops_reader fault.now ≡ true }
    ensures { result ≡ fault_of fault.now }
{
    match fault {
        ErrorKind::Io(_) => TextError::ReadFault,
        ErrorKind::OutOfMemory => TextError::Memory,
        ErrorKind::UnequalLengths { .. }
        | ErrorKind::Utf8 { .. }
        | ErrorKind::Serialize(_)
        | ErrorKind::Deserialize { .. } => unreachable!(),
    }
}

/// Hands on what each record that `rows` has left adds, by the places of its key and weight, and
/// counts all records, with the number of those `before`, and those that are `bad`.
fn take_rows<R: Read, T: TakeItems>(
    rows: &mut Reader<R>,
    row: &mut ByteRecord,
    room: &mut Room,
    columns: &Columns,
    before: u64,
    taker: &mut T,
    bad: &mut u64,
    layout: &Layout,
) -> Result<u64, TextError>
    requires ready { IsReady rows.old }
    requires bounded { T.weight_taken taker.old ≤ max_total }
    ensures items { IfOk result (λ after.
        Takes T.with_item T.weight_taken taker.old taker.new (λ xs.
        IfSome (rows_left R.remaining layout.now columns.now rows.old) (λ ps.
        (items_after layout.now (before + 1) (T.weight_taken taker.old) ps ≡ Ok xs)
        × (after ≡ before + length ps)))) }
    ensures bounded { OnOk result (T.weight_taken taker.new ≤ max_total) }
    ensures refused { IfErr result (λ error.
        RowsRefused layout.now before (T.weight_taken taker.old)
        (rows_left R.remaining layout.now columns.now rows.old) error) }
{
    let mut number = before;
    while number < u64::MAX {
        match rows.read_byte_record(row) {
            Ok(true) => {}
            Ok(false) => return Ok(number),
            Err(error) => return Err(fault_of(error.kind())),
        }
        number += 1;
        take_row(taker, room, row, columns, number, bad, layout)?;
    }
    Err(TextError::ReadFault)
}

/// A reader of the records that some bytes are.
fn rows_of<'b>(alloc: Global, bytes: &'b [u8], layout: &Layout) -> Reader<&'b [u8]>
    ensures ready { IsReady result }
    ensures config { reader_config result ≡ config_of layout.now }
    ensures start { reader_state result ≡ st.StartRecord }
    ensures source { source_of ⟦<&'b [u8] as Read>⟧.remaining result
        ≡ Some (strip_bom bytes.now) }
{
    ReaderBuilder::new()
        .delimiter(layout.format.byte_between(layout.delimiter))
        .quoting(layout.format.has_quotes())
        .has_headers(false)
        .flexible(true)
        .from_reader(alloc, bytes)
}

/// Hands on what each record adds that some bytes are, by these `columns`, and counts all
/// records, with the number of those `before`, and those that are `bad` and count as the key of the
/// layout.
pub fn read_rows<T: TakeItems>(
    alloc: Global,
    bytes: &[u8],
    columns: &Columns,
    before: u64,
    taker: &mut T,
    bad: &mut u64,
    layout: &Layout,
) -> Result<u64, TextError>
    requires bounded { T.weight_taken taker.old ≤ max_total }
    ensures items { IfOk result (λ after.
        Takes T.with_item T.weight_taken taker.old taker.new (λ xs.
        (items_after layout.now (before + 1) (T.weight_taken taker.old)
        (map (parts_at layout.now columns.now) (rows_in layout.now bytes.now)) ≡ Ok xs)
        × (after ≡ before + length (rows_in layout.now bytes.now)))) }
    ensures bounded { OnOk result (T.weight_taken taker.new ≤ max_total) }
    ensures refused { IfErr result (λ error.
        RowsRefused layout.now before (T.weight_taken taker.old)
        (Some (map (parts_at layout.now columns.now) (rows_in layout.now bytes.now)))
        error) }
{
    let mut rows = rows_of(alloc, bytes, layout);
    let mut row = ByteRecord::new(alloc);
    let mut room = Room::new(alloc);
    let after = take_rows(
        &mut rows, &mut row, &mut room, columns, before, taker, bad, layout,
    )?;
    Ok(after)
}
