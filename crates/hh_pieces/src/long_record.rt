//! Records that are read byte by byte, of which no more is kept than a layout reads, however long
//! they are.

ghost use Rattle.std.specs.Io.KnownBytes.{Keeps, prepend_known};
ghost use Rattle.std.specs.Prelude.{◌≡◌, ◌≤◌, ◌<◌, ◌-◌, ◌++◌, ◌∷◌, [], ℕ, List, IfErr, IfOk, IfSome, OnOk, Some, false, true, length, option_map, slice_index, take};
ghost use Rattle.csv.specs.Machine.{ends_at_end, field_after, fields_after, in_field, is_end, start_field, step};
ghost use Rattle.csv.specs.Reading.{strip_bom};
ghost use Rattle.csv.specs.Records.{fields_of};
ghost use Rattle.hh_stream.specs.Weights.{max_key_len};
ghost use Rattle.hh_records.specs.Formats.{is_whole_field, part_said};
ghost use Rattle.hh_records.specs.Layouts.{adds, parts_at};
ghost use Rattle.hh_records.specs.Streams.{Fields};
ghost use Rattle.hh_pieces.specs.LongRecords as spec;
ghost use Rattle.hh_pieces.specs.Pieces.{is_outside};
ghost use Rattle.hh_pieces.specs.LongRecords.{EndsRecord, Holds, IsFed, IsFresh, LeavesOutside, LeavesRecords, StopsReading, action_of, config_for, state_of};
ghost use Rattle.hh_pieces.specs.Windows.{held_in};

use crate::cuts::mark_len;
use crate::window::Window;
use csv::ByteRecord;
use hh_faults::TextError;
use hh_records::{ColumnIndices, Columns, Format, Layout};
use hh_stream::MAX_KEY_LEN;
use std::alloc::{AllocError, Global};
use std::io::Read;

/// Where a byte of a text stands: at the start of a record, or of one more field, within a field or
/// quotes, behind a quote there, or behind a carriage return that ended a record.
#[derive(Clone, Copy)]
pub(crate) enum Spot {
    Record,
    Field,
    Plain,
    Quoted,
    Quote,
    Return,
}

/// What a byte does to the field at hand.
#[derive(Clone, Copy)]
pub(crate) enum Effect {
    Skip,
    Copy,
    EndField,
    EndRecord,
}

/// How records are written: which byte stands between fields, and whether these may be quoted.
#[derive(Clone, Copy)]
pub(crate) struct Syntax {
    pub(crate) delimiter: u8,
    pub(crate) quoting: bool,
}

impl Syntax {
    /// What `byte` does in a field.
    fn in_field(self, byte: u8) -> (Spot, Effect)
        ensures next { (state_of result.0, action_of result.1) ≡ in_field (config_for self) byte }
        ensures end { result.1 ≡ Effect.EndRecord → EndsRecord byte result.0 }
    {
        if byte == self.delimiter {
            (Spot::Field, Effect::EndField)
        } else if byte == b'\r' {
            (Spot::Return, Effect::EndRecord)
        } else if byte == b'\n' {
            (Spot::Record, Effect::EndRecord)
        } else {
            (Spot::Plain, Effect::Copy)
        }
    }

    /// What `byte` does at the start of a field.
    fn first_of_field(self, byte: u8) -> (Spot, Effect)
        ensures next { (state_of result.0, action_of result.1)
            ≡ start_field (config_for self) byte }
        ensures end { result.1 ≡ Effect.EndRecord → EndsRecord byte result.0 }
    {
        if self.quoting && byte == b'"' {
            (Spot::Quoted, Effect::Skip)
        } else {
            self.in_field(byte)
        }
    }

    /// What `byte` does at a `spot`.
    fn next(self, spot: Spot, byte: u8) -> (Spot, Effect)
        ensures next { (state_of result.0, action_of result.1)
            ≡ step (config_for self) (state_of spot) byte }
        ensures end { result.1 ≡ Effect.EndRecord → EndsRecord byte result.0 }
    {
        match spot {
            Spot::Quoted => {
                if self.quoting && byte == b'"' {
                    (Spot::Quote, Effect::Skip)
                } else {
                    (Spot::Quoted, Effect::Copy)
                }
            }
            Spot::Quote => {
                if self.quoting && byte == b'"' {
                    (Spot::Quoted, Effect::Copy)
                } else {
                    self.in_field(byte)
                }
            }
            Spot::Plain => self.in_field(byte),
            Spot::Field => self.first_of_field(byte),
            Spot::Record | Spot::Return => {
                if byte == b'\r' || byte == b'\n' {
                    (Spot::Record, Effect::Skip)
                } else {
                    self.first_of_field(byte)
                }
            }
        }
    }
}

/// How much is kept of a record: whether empty fields count for nothing, how many of the others are
/// kept, and how many bytes of each. Where there is no number, all are.
#[derive(Clone, Copy)]
pub(crate) struct Limits {
    pub(crate) squeezes: bool,
    pub(crate) fields: Option<usize>,
    pub(crate) bytes: Option<usize>,
}

/// Gives how many of the first fields `columns` read, where there is such a number.
fn fields_read(columns: &ColumnIndices) -> Option<usize>
    ensures { spec.ReadsWithin (Some (columns.now.key.items, columns.now.weight)) result }
{
    let mut last = columns.weight.unwrap_or(0);
    for place in &columns.key {
        last = last.max(*place);
    }
    last.checked_add(1)
}

/// Gives how many bytes make a field too long for a key, and for a weight with these `decimals`.
fn least_long(decimals: u8) -> usize
    ensures key { max_key_len < result }
    ensures small { decimals ≤ 255 }
{
    MAX_KEY_LEN.max(MOST_WHOLE + decimals as usize) + 1
}

/// Gives how many of the first bytes of a field `layout` reads, where there is such a number.
fn bytes_read(layout: &Layout) -> Option<usize>
    ensures whole { IfSome result (λ _. is_whole_field (part_said layout.now.part) ≡ true) }
    ensures long { IfSome result (λ most. max_key_len < most) }
    ensures small { IfSome result (λ _. layout.now.decimals ≤ 255) }
{
    if layout.part.is_whole() {
        Some(least_long(layout.decimals))
    } else {
        None
    }
}

impl Limits {
    /// All is kept.
    pub(crate) const NONE: Limits = Limits {
        squeezes: false,
        fields: None,
        bytes: None,
    };

    /// Gives how much is kept of records that `layout` reads by these `columns`: all, or what
    /// decides what they add.
    pub(crate) fn of(layout: &Layout, columns: &Columns) -> Limits
        ensures { (t : ℕ) (fs : Fields) →
            adds layout.now t (parts_at layout.now columns.now (spec.kept_of result fs))
            ≡ adds layout.now t (parts_at layout.now columns.now fs) }
    {
        let squeezes = match layout.format {
            Format::Csv | Format::Unquoted => false,
            Format::Squeezed => true,
            Format::Lines | Format::Json => return Limits::NONE,
        };
        let fields = match columns.indices() {
            Some(columns) => fields_read(columns),
            None => Some(MOST_PAIR + 1),
        };
        let bytes = bytes_read(layout);
        Limits {
            squeezes,
            fields,
            bytes,
        }
    }
}

/// Whether one more is kept behind `count`, where no more than `most` are.
fn is_kept(most: Option<usize>, count: usize) -> bool
    ensures { result ≡ spec.is_kept most count }
{
    match most {
        Some(most) => count < most,
        None => true,
    }
}

/// A record as far as it was read: the fields that have ended, and the one at hand, and of both no
/// more than is kept.
#[derive(Drop)]
pub(crate) struct LongRecord {
    pub(crate) row: ByteRecord,
    field: Vec<u8>,
    spot: Spot,
}

impl LongRecord {
    pub(crate) fn new(alloc: Global) -> LongRecord
        ensures { IsFresh result }
    {
        LongRecord {
            row: ByteRecord::new(alloc),
            field: Vec::new(alloc),
            spot: Spot::Record,
        }
    }

    /// Forgets what was read.
    fn clear(&mut self)
        ensures { IsFresh self.new }
    {
        self.row.clear();
        self.field.clear();
        self.spot = Spot::Record;
    }

    /// Ends the field at hand.
    fn end_field(&mut self, limits: Limits) -> Result<(), AllocError>
        ensures holds { OnOk result ((fs : Fields) (f : List ℕ) → Holds limits self.old fs f
            → Holds limits self.new (fs ++ f ∷ []) []) }
        ensures spot { OnOk result (self.new.spot ≡ self.old.spot) }
    {
        let is_filled = !limits.squeezes || !self.field.is_empty();
        if is_filled && is_kept(limits.fields, self.row.len()) {
            self.row.push_field(self.field.as_slice())?;
        }
        self.field.clear();
        Ok(())
    }

    /// Adds `byte` to the field at hand.
    fn copy(&mut self, limits: Limits, byte: u8) -> Result<(), AllocError>
        ensures holds { OnOk result ((fs : Fields) (f : List ℕ) → Holds limits self.old fs f
            → Holds limits self.new fs (f ++ byte ∷ [])) }
        ensures spot { OnOk result (self.new.spot ≡ self.old.spot) }
    {
        if is_kept(limits.bytes, self.field.len()) {
            self.field.push(byte)?;
        }
        Ok(())
    }

    /// Takes one more `byte`, and gives whether it ends the record.
    fn take(&mut self, syntax: Syntax, limits: Limits, byte: u8) -> Result<bool, AllocError>
        ensures ended { IfOk result (λ ended. ended
            ≡ is_end (step (config_for syntax) (state_of self.old.spot) byte).1) }
        ensures end { IfOk result (λ ended. ended ≡ true → EndsRecord byte self.new.spot) }
        ensures spot { IfOk result (λ _. state_of self.new.spot
            ≡ (step (config_for syntax) (state_of self.old.spot) byte).0) }
        ensures holds { IfOk result (λ _. (fs : Fields) (f : List ℕ) → Holds limits self.old fs f
            → Holds limits self.new
            (fields_after (step (config_for syntax) (state_of self.old.spot) byte).1 fs f)
            (field_after (step (config_for syntax) (state_of self.old.spot) byte).1 byte f)) }
    {
        let (spot, effect) = syntax.next(self.spot, byte);
        self.spot = spot;
        match effect {
            Effect::Skip => Ok(false),
            Effect::Copy => {
                self.copy(limits, byte)?;
                Ok(false)
            }
            Effect::EndField => {
                self.end_field(limits)?;
                Ok(false)
            }
            Effect::EndRecord => {
                self.end_field(limits)?;
                Ok(true)
            }
        }
    }

    /// Takes `bytes` up to the one that ends the record, or all. It gives how many it took, and
    /// whether the record ended.
    fn take_bytes(
        &mut self,
        syntax: Syntax,
        limits: Limits,
        bytes: &[u8],
    ) -> Result<(usize, bool), AllocError>
        ensures within { IfOk result (λ taken. taken.0 ≤ length bytes.now) }
        ensures all { IfOk result (λ taken. taken.1 ≡ false → taken.0 ≡ length bytes.now) }
        ensures end { IfOk result (λ taken. taken.1 ≡ true → (0 < taken.0)
            × EndsRecord (slice_index bytes.now (taken.0 - 1)) self.new.spot) }
        ensures fed { IfOk result (λ taken. IsFed (config_for syntax) limits self.old
            (take taken.0 bytes.now) self.new taken.1) }
    {
        let mut count = 0;
        while count < bytes.len() {
            let ended = self.take(syntax, limits, bytes[count])?;
            count += 1;
            if ended {
                return Ok((count, true));
            }
        }
        Ok((count, false))
    }

    /// Ends the record where the text ends, and gives whether there is one.
    fn finish(&mut self, limits: Limits) -> Result<bool, AllocError>
        ensures found { IfOk result (λ found. found ≡ ends_at_end (state_of self.old.spot)) }
        ensures holds { IfOk result (λ found. (fs : Fields) (f : List ℕ) → found ≡ true
            → Holds limits self.old fs f → Holds limits self.new (fs ++ f ∷ []) []) }
        ensures spot { OnOk result (self.new.spot ≡ self.old.spot) }
    {
        if matches!(self.spot, Spot::Record | Spot::Return) {
            return Ok(false);
        }
        self.end_field(limits)?;
        Ok(true)
    }

    /// Whether what was read last ends outside quotes, as it does but where a text ends in them.
    pub(crate) fn is_outside(&self) -> bool
        ensures { result ≡ is_outside (state_of self.now.spot) }
    {
        !matches!(self.spot, Spot::Quoted)
    }

    /// Reads the next record of a text that `window` holds the start of, and `reader` has the rest
    /// of. It gives whether there was one. The byte that ends it stays in the window: it is blank.
    pub(crate) fn read<R: Read>(
        &mut self,
        syntax: Syntax,
        limits: Limits,
        window: &mut Window,
        reader: &mut R,
    ) -> Result<bool, TextError>
        ensures row { IfOk result (λ found. LeavesRecords (config_for syntax) limits
            (prepend_known (held_in window.old) (R.remaining reader.old))
            (prepend_known (held_in window.new) (R.remaining reader.new))
            found (fields_of self.new.row)) }
        ensures outside { OnOk result (is_outside (state_of self.new.spot) ≡ true
            → LeavesOutside (config_for syntax)
            (prepend_known (held_in window.old) (R.remaining reader.old))
            (prepend_known (held_in window.new) (R.remaining reader.new))) }
        ensures refused { IfErr result StopsReading }
    {
        self.clear();
        skip_mark(window, reader)?;
        for _ in 0..u64::MAX {
            let (count, ended) = self.take_bytes(syntax, limits, window.held())?;
            if ended {
                window.remove(count - 1);
                return Ok(true);
            }
            window.remove(count);
            window.make_room(READ_LEN)?;
            let Ok(more) = window.read_more(reader) else {
                return Err(TextError::ReadFault);
            };
            if more == 0 {
                return Ok(self.finish(limits)?);
            }
        }
        Err(TextError::ReadFault)
    }
}

/// Removes a byte order mark at the start of a text that `window` holds the start of, and `reader`
/// has the rest of. It reads on until the window holds as many bytes, or the text ends.
fn skip_mark<R: Read>(window: &mut Window, reader: &mut R) -> Result<(), TextError>
    ensures left { OnOk result (Keeps
        (option_map strip_bom (prepend_known (held_in window.old) (R.remaining reader.old)))
        (prepend_known (held_in window.new) (R.remaining reader.new))) }
    ensures refused { IfErr result StopsReading }
{
    while window.len() < MARK_LEN {
        window.make_room(READ_LEN)?;
        let Ok(more) = window.read_more(reader) else {
            return Err(TextError::ReadFault);
        };
        if more == 0 {
            window.remove(mark_len(window.held()));
            return Ok(());
        }
    }
    window.remove(mark_len(window.held()));
    Ok(())
}

// How many bytes a byte order mark has.
const MARK_LEN: usize = 3;

// How many fields a key and its weight are, at most.
const MOST_PAIR: usize = 2;

// How many bytes a weight has up to its decimals, at most.
const MOST_WHOLE: usize = 21;

// How many bytes are read at once of a record that is read byte by byte, at least.
const READ_LEN: usize = 65_536;
