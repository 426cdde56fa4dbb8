//! Texts whose records are read from the first to the last, in memory that no record outgrows.

ghost use Rattle.std.specs.Io.KnownBytes.{prepend_known};
ghost use Rattle.std.specs.Prelude.{◌≡◌, ◌*◌, ◌+◌, ◌<◌, ◌≤◌, ◌∷◌, [], ℕ, List, Option, Ok, Some, true, IfOk, IfErr, IfSome, OnOk, length, option_map};
ghost use Rattle.hh_stream.specs.Weights.{max_total};
ghost use Rattle.hh_stream.specs.declared.key_hash.KeyHash.{KeyHash};
ghost use Rattle.hh_stream.specs.Taking.{Takes};
ghost use Rattle.hh_records.specs.Layouts.{FindsColumns, OpenRefused, RowsRefused, TextsRefused, rows_in};
ghost use Rattle.hh_records.specs.Layouts.{config_of, every, items_after, names_columns};
ghost use Rattle.hh_records.specs.Layouts.{text_parts, texts_known, texts_parts};
ghost use Rattle.hh_records.specs.Streams.{ReadsAs, text_known};
ghost use Rattle.hh_records.specs.Taking.{TakesItems};
ghost use Rattle.hh_pieces.specs.LongRecords.{LeavesOutside, config_for};
ghost use Rattle.hh_pieces.specs.Pieces.{ends_outside, parts_in};
ghost use Rattle.hh_pieces.specs.Texts.{AllOpen, Chooses, LeavesBytes, Opens, OpensAs, all_left};
ghost use Rattle.hh_pieces.specs.Texts.{parts_left, records_known};
ghost use Rattle.hh_pieces.specs.Windows.{held_in};

use crate::cuts::{begins_with_quotes, ends_outside_quotes, front_records};
use crate::long_record::{Limits, LongRecord, Syntax};
use crate::pieces::{has_quotes_apart, read_piece};
use crate::window::Window;
use csv::ByteRecord;
use hh_faults::TextError;
use hh_records::laws::plain_layouts_read_streams;
use hh_records::{Columns, Layout, ReadRecords, Room, take_row};
use hh_stream::{KeyHash, Stream, TakeItems};
use std::alloc::{AllocError, Global};
use std::io::Read;

// If no record ends in this many bytes in a row of a text, they are read byte by byte, and no more
// is kept of a record than decides what it adds.
pub(crate) const MOST_HELD: usize = 262_144;

// Records are read byte by byte until a window holds fewer bytes than these.
const LEAST_HELD: usize = 131_072;

/// Gives how `layout` writes records.
fn syntax_of(layout: &Layout) -> Syntax
    ensures { config_for result ≡ config_of layout.now }
{
    Syntax {
        delimiter: layout.format.byte_between(layout.delimiter),
        quoting: layout.format.has_quotes(),
    }
}

/// A text whose records are still to come: the bytes of it that a window holds, a reader of the
/// others, and the columns by which its records are read.
#[derive(Drop)]
pub(crate) struct OpenText<R> {
    reader: R,
    window: Window,
    columns: Columns,
}

/// Finds the columns of a text that `window` holds the start of, and `reader` has the rest of: by
/// its header, where it is to have one, which is read. There are none where it has no record for
/// that. It gives, too, whether what was read ends outside quotes.
pub(crate) fn choose_columns<R: Read>(
    alloc: Global,
    window: &mut Window,
    reader: &mut R,
    layout: &Layout,
) -> Result<(Option<Columns>, bool), TextError>
    ensures columns { IfOk result (λ chosen. Chooses layout.now
        (prepend_known (held_in window.old) (R.remaining reader.old)) chosen.0
        (prepend_known (held_in window.new) (R.remaining reader.new))) }
    ensures found { IfOk result (λ chosen.
        IfSome (prepend_known (held_in window.old) (R.remaining reader.old)) (λ bytes.
        FindsColumns layout.now (rows_in layout.now bytes) chosen.0)) }
    ensures outside { IfOk result (λ chosen. chosen.1 ≡ true → LeavesOutside (config_of layout.now)
        (prepend_known (held_in window.old) (R.remaining reader.old))
        (prepend_known (held_in window.new) (R.remaining reader.new))) }
    ensures refused { IfErr result (λ error. OpenRefused (names_columns layout.now)
        (option_map (text_parts layout.now)
        (prepend_known (held_in window.old) (R.remaining reader.old))) error) }
{
    if !layout.has_header {
        let columns = Columns::by_header(alloc, layout, &ByteRecord::new(alloc))?;
        return Ok((Some(columns), true));
    }
    let mut header = LongRecord::new(alloc);
    let found = header.read(syntax_of(layout), Limits::NONE, window, reader)?;
    let outside = header.is_outside();
    if !found {
        return Ok((None, outside));
    }
    let columns = Columns::by_header(alloc, layout, &header.row)?;
    Ok((Some(columns), outside))
}

/// Opens a text whose records `layout` reads, after its header where it is to have one, with room
/// for `len` bytes at first. There is none where it has no record for the header.
fn open_text<R: Read + Drop>(
    alloc: Global,
    reader: R,
    len: usize,
    layout: &Layout,
) -> Result<Option<OpenText<R>>, TextError>
    ensures opened { IfOk result (Opens R.remaining layout.now
        (option_map (text_parts layout.now) (R.remaining reader))) }
    ensures refused { IfErr result (λ error. OpenRefused (names_columns layout.now)
        (option_map (text_parts layout.now) (R.remaining reader)) error) }
{
    let mut reader = reader;
    let mut window = Window::new(alloc, len)?;
    match choose_columns(alloc, &mut window, &mut reader, layout)? {
        (Some(columns), _) => Ok(Some(OpenText {
            reader,
            window,
            columns,
        })),
        (None, _) => Ok(None),
    }
}

/// How many records were read of a text, with those before them, and whether they end outside
/// quotes, as all do but a last one.
#[derive(Clone, Copy)]
pub(crate) struct Taken {
    pub(crate) number: u64,
    pub(crate) outside: bool,
}

/// Hands on what whole records at the front of `window` add, and counts all records, with the
/// number of those `before`, and those that are `bad`. Where `quotes_apart` they are those before
/// the line of the first quote, and else all.
fn take_whole<T: TakeItems>(
    alloc: Global,
    columns: &Columns,
    quotes_apart: bool,
    window: &mut Window,
    before: u64,
    taker: &mut T,
    bad: &mut u64,
    layout: &Layout,
) -> Result<u64, TextError>
    requires bounded { T.weight_taken taker.old ≤ max_total }
    ensures items { IfOk result (λ after.
        Takes T.with_item T.weight_taken taker.old taker.new (λ xs. (rest : Option (List ℕ)) →
        LeavesBytes layout.now columns.now before (T.weight_taken taker.old)
        (prepend_known (held_in window.old) rest) xs after
        (prepend_known (held_in window.new) rest))) }
    ensures outside { OnOk result ((rest : Option (List ℕ)) → LeavesOutside (config_of layout.now)
        (prepend_known (held_in window.old) rest) (prepend_known (held_in window.new) rest)) }
    ensures bounded { OnOk result (T.weight_taken taker.new ≤ max_total) }
    ensures refused { IfErr result (λ error. (rest : Option (List ℕ)) →
        RowsRefused layout.now before (T.weight_taken taker.old)
        (option_map (parts_in layout.now columns.now) (prepend_known (held_in window.old) rest))
        error) }
{
    let Some(count) = front_records(window.held(), quotes_apart, layout) else {
        return Ok(before);
    };
    let records = &window.held()[..count];
    let after = read_piece(alloc, layout, columns, records, before, bad, taker)?;
    window.remove(count);
    Ok(after)
}

/// Whether the next record of `window` is read byte by byte, too: where the text `is_long`, as long
/// as the window holds [`LEAST_HELD`] bytes, and else if the next line has a quote.
fn reads_on(is_long: bool, window: &Window) -> bool {
    if is_long {
        window.len() >= LEAST_HELD
    } else {
        begins_with_quotes(window.held())
    }
}

/// Hands on what records at the front of `window` add, which `reader` has the rest of, byte by
/// byte, by way of `record` and `room`. It takes one, and more as long as the next line has a quote
/// or, of a text that `is_long`, the window holds [`LEAST_HELD`] bytes. It counts all records, with
/// the number of those `before`, and those that are `bad`.
fn take_records<R: Read, T: TakeItems>(
    columns: &Columns,
    record: &mut LongRecord,
    room: &mut Room,
    is_long: bool,
    window: &mut Window,
    reader: &mut R,
    before: u64,
    taker: &mut T,
    bad: &mut u64,
    layout: &Layout,
) -> Result<Taken, TextError>
    requires bounded { T.weight_taken taker.old ≤ max_total }
    ensures items { IfOk result (λ taken.
        Takes T.with_item T.weight_taken taker.old taker.new (λ xs.
        LeavesBytes layout.now columns.now before (T.weight_taken taker.old)
        (prepend_known (held_in window.old) (R.remaining reader.old)) xs taken.number
        (prepend_known (held_in window.new) (R.remaining reader.new)))) }
    ensures outside { IfOk result (λ taken. taken.outside ≡ true
        → LeavesOutside (config_of layout.now)
        (prepend_known (held_in window.old) (R.remaining reader.old))
        (prepend_known (held_in window.new) (R.remaining reader.new))) }
    ensures bounded { OnOk result (T.weight_taken taker.new ≤ max_total) }
    ensures refused { IfErr result (λ error.
        RowsRefused layout.now before (T.weight_taken taker.old)
        (option_map (parts_in layout.now columns.now)
        (prepend_known (held_in window.old) (R.remaining reader.old))) error) }
{
    let limits = Limits::of(layout, columns);
    let syntax = syntax_of(layout);
    let mut taken = Taken {
        number: before,
        outside: true,
    };
    let mut goes_on = true;
    while taken.outside && goes_on && taken.number < u64::MAX {
        let found = record.read(syntax, limits, window, reader)?;
        taken.outside = record.is_outside();
        if !found {
            return Ok(taken);
        }
        taken.number += 1;
        take_row(taker, room, &record.row, columns, taken.number, bad, layout)?;
        goes_on = reads_on(is_long, window);
    }
    Ok(taken)
}

/// Hands on what records at the front of `window` add, which `reader` has the rest of: those that
/// are whole, those with quotes byte by byte where the others are cut into lines and, where the
/// window holds [`MOST_HELD`] bytes even so, one that is longer. It counts all records, with the
/// number of those `before`, and those that are `bad`.
fn take_held<R: Read, T: TakeItems>(
    alloc: Global,
    columns: &Columns,
    window: &mut Window,
    reader: &mut R,
    before: u64,
    taker: &mut T,
    bad: &mut u64,
    layout: &Layout,
) -> Result<Taken, TextError>
    requires bounded { T.weight_taken taker.old ≤ max_total }
    ensures items { IfOk result (λ taken.
        Takes T.with_item T.weight_taken taker.old taker.new (λ xs.
        LeavesBytes layout.now columns.now before (T.weight_taken taker.old)
        (prepend_known (held_in window.old) (R.remaining reader.old)) xs taken.number
        (prepend_known (held_in window.new) (R.remaining reader.new)))) }
    ensures outside { IfOk result (λ taken. taken.outside ≡ true
        → LeavesOutside (config_of layout.now)
        (prepend_known (held_in window.old) (R.remaining reader.old))
        (prepend_known (held_in window.new) (R.remaining reader.new))) }
    ensures bounded { OnOk result (T.weight_taken taker.new ≤ max_total) }
    ensures refused { IfErr result (λ error.
        RowsRefused layout.now before (T.weight_taken taker.old)
        (option_map (parts_in layout.now columns.now)
        (prepend_known (held_in window.old) (R.remaining reader.old))) error) }
{
    let quotes_apart = has_quotes_apart(layout, columns);
    let mut record = LongRecord::new(alloc);
    let mut room = Room::new(alloc);
    let mut taken = Taken {
        number: before,
        outside: true,
    };
    for _ in 0..u64::MAX {
        let Taken { number, outside } = taken;
        let number = take_whole(
            alloc,
            columns,
            quotes_apart,
            window,
            number,
            taker,
            bad,
            layout,
        )?;
        let is_quoted = quotes_apart && begins_with_quotes(window.held());
        let is_long = !is_quoted && window.len() >= MOST_HELD;
        if !outside || !is_quoted && !is_long {
            return Ok(Taken { number, outside });
        }
        taken = take_records(
            columns,
            &mut record,
            &mut room,
            is_long,
            window,
            reader,
            number,
            taker,
            bad,
            layout,
        )?;
    }
    Err(TextError::ReadFault)
}

/// Hands on what each record adds of a text that `window` holds the start of, and `reader` has the
/// rest of, and counts all records, with the number of those `before`, and those that are `bad` and
/// count as the key of the layout.
pub(crate) fn read_window<R: Read, T: TakeItems>(
    alloc: Global,
    columns: &Columns,
    window: &mut Window,
    reader: &mut R,
    before: u64,
    taker: &mut T,
    bad: &mut u64,
    layout: &Layout,
) -> Result<Taken, TextError>
    requires bounded { T.weight_taken taker.old ≤ max_total }
    ensures items { IfOk result (λ taken.
        Takes T.with_item T.weight_taken taker.old taker.new (λ xs.
        LeavesBytes layout.now columns.now before (T.weight_taken taker.old)
        (prepend_known (held_in window.old) (R.remaining reader.old)) xs taken.number
        (Some []))) }
    ensures outside { IfOk result (λ taken. taken.outside ≡ true
        → IfSome (prepend_known (held_in window.old) (R.remaining reader.old))
        (λ bytes. ends_outside (config_of layout.now) bytes ≡ true)) }
    ensures bounded { OnOk result (T.weight_taken taker.new ≤ max_total) }
    ensures refused { IfErr result (λ error.
        RowsRefused layout.now before (T.weight_taken taker.old)
        (option_map (parts_in layout.now columns.now)
        (prepend_known (held_in window.old) (R.remaining reader.old))) error) }
{
    let mut number = before;
    let mut outside = true;
    for _ in 0..u64::MAX {
        let taken = take_held(alloc, columns, window, reader, number, taker, bad, layout)?;
        number = taken.number;
        outside &= taken.outside;
        window.make_room(MOST_HELD)?;
        let Ok(more) = window.read_more(reader) else {
            return Err(TextError::ReadFault);
        };
        if more == 0 {
            let last = window.held();
            number = read_piece(alloc, layout, columns, last, number, bad, taker)?;
            outside &= ends_outside_quotes(last, layout.format, layout.delimiter);
            return Ok(Taken { number, outside });
        }
    }
    Err(TextError::ReadFault)
}

/// Hands on what each record of `text` adds, as [`read_window`] does.
fn read_text<R: Read + Drop, T: TakeItems>(
    alloc: Global,
    text: OpenText<R>,
    before: u64,
    taker: &mut T,
    bad: &mut u64,
    layout: &Layout,
) -> Result<u64, TextError>
    requires bounded { T.weight_taken taker.old ≤ max_total }
    ensures items { IfOk result (λ after.
        Takes T.with_item T.weight_taken taker.old taker.new (λ xs.
        IfSome (parts_left R.remaining layout.now text) (λ ps.
        (items_after layout.now (before + 1) (T.weight_taken taker.old) ps ≡ Ok xs)
        × (after ≡ before + length ps)))) }
    ensures bounded { OnOk result (T.weight_taken taker.new ≤ max_total) }
    ensures refused { IfErr result (λ error.
        RowsRefused layout.now before (T.weight_taken taker.old)
        (parts_left R.remaining layout.now text) error) }
{
    let OpenText {
        mut reader,
        mut window,
        columns,
    } = text;
    let taken = read_window(
        alloc,
        &columns,
        &mut window,
        &mut reader,
        before,
        taker,
        bad,
        layout,
    )?;
    Ok(taken.number)
}

/// Opens a text after those that are open, with room for `len` bytes at first. One with no records
/// is passed over.
fn open_next<R: Read + Drop>(
    alloc: Global,
    texts: &mut Vec<OpenText<R>>,
    reader: R,
    len: usize,
    layout: &Layout,
) -> Result<(), TextError>
    ensures opened { OnOk result (OpensAs R.remaining layout.now
        (option_map (text_parts layout.now) (R.remaining reader))
        texts.old.items texts.new.items) }
    ensures refused { IfErr result (λ error. OpenRefused (names_columns layout.now)
        (option_map (text_parts layout.now) (R.remaining reader)) error) }
{
    let Some(text) = open_text(alloc, reader, len, layout)? else {
        return Ok(());
    };
    match texts.push(text) {
        Ok(()) => {}
        Err(_) => return Err(TextError::Memory),
    }
    Ok(())
}

/// Opens all texts, each with room for `len` bytes at first, before a record of any is read.
fn open_all<R: Read + Drop>(
    alloc: Global,
    first: R,
    others: Vec<R>,
    len: usize,
    layout: &Layout,
) -> Result<Vec<OpenText<R>>, TextError>
    ensures opened { IfOk result (λ texts. AllOpen R.remaining layout.now
        (first ∷ others.items) texts.items) }
    ensures refused { IfErr result (λ error. OpenRefused (names_columns layout.now)
        (option_map (texts_parts layout.now) (every R.remaining (first ∷ others.items))) error) }
{
    let mut texts = Vec::new(alloc);
    match open_next(alloc, &mut texts, first, len, layout) {
        Ok(()) => {}
        Err(error) => return Err(error),
    }
    for reader in others {
        match open_next(alloc, &mut texts, reader, len, layout) {
            Ok(()) => {}
            Err(error) => return Err(error),
        }
    }
    Ok(texts)
}

/// Hands on what the records of open texts add, one text after the other, and counts those that are
/// `bad`.
fn read_all<R: Read + Drop, T: TakeItems>(
    alloc: Global,
    texts: Vec<OpenText<R>>,
    taker: &mut T,
    bad: &mut u64,
    layout: &Layout,
) -> Result<(), TextError>
    requires bounded { T.weight_taken taker.old ≤ max_total }
    ensures items { OnOk result
        (Takes T.with_item T.weight_taken taker.old taker.new (λ xs.
        IfSome (all_left R.remaining layout.now texts.items) (λ ps.
        items_after layout.now 1 (T.weight_taken taker.old) ps ≡ Ok xs))) }
    ensures refused { IfErr result (λ error.
        RowsRefused layout.now 0 (T.weight_taken taker.old)
        (all_left R.remaining layout.now texts.items) error) }
{
    let mut number = 0;
    for text in texts {
        match read_text(alloc, text, number, taker, bad, layout) {
            Ok(after) => number = after,
            Err(error) => return Err(error),
        }
    }
    Ok(())
}

/// Records that are to be read: those of a first text, and then those of others, each of which is
/// read as a text of its own.
#[derive(Drop)]
pub struct Records<R> {
    pub layout: Layout,
    pub first: R,
    pub others: Vec<R>,
}

impl<R: Read + Drop> Records<R> {
    /// Those of one text of keys and weights, as [`read_stream`](crate::read_stream) reads them.
    /// Keys are hashed by the words that all runs have.
    pub fn of_reader(alloc: Global, reader: R) -> Records<R>
        ensures known { records_known R.remaining result ≡ text_known (R.remaining reader) }
        ensures whole { result.layout.decimals ≡ 0 }
    {
        Records::with_hasher(alloc, reader, KeyHash::fixed())
    }

    /// [`of_reader`](Records::of_reader), with keys hashed by `hash`.
    pub fn with_hasher(alloc: Global, reader: R, hash: KeyHash) -> Records<R>
        ensures known { records_known R.remaining result ≡ text_known (R.remaining reader) }
        ensures whole { result.layout.decimals ≡ 0 }
        ensures hash { result.layout.hash ≡ hash }
    {
        plain_layouts_read_streams();
        Records {
            layout: Layout::with_hasher(alloc, hash),
            first: reader,
            others: Vec::new(alloc),
        }
    }
}

impl<R: Read + Drop> ReadRecords for Records<R> {
    ghost known = { records_known R.remaining };

    ghost hasher = { λ records. records.layout.hash };

    fn hash(&self) -> KeyHash {
        self.layout.hash
    }

    fn read_into<T: TakeItems>(self, alloc: Global, taker: T) -> Result<T, TextError> {
        read_records(alloc, self, taker)
    }
}

// The most bytes that are read at once, and those of the buffers of all texts.
const READ_LEN: usize = 65_536;

const MOST_BUFFERED: usize = 1_048_576;

/// Gives the number of bytes that are read at once of each of this number of `texts`.
fn read_len(texts: usize) -> usize
    ensures some { 0 < result }
    ensures whole { texts ≤ 16 → result ≡ 65536 }
    ensures bounded { texts ≤ 1048576 → texts * result ≤ 1048576 }
{
    (MOST_BUFFERED / texts.max(1)).min(READ_LEN).max(1)
}

/// Hands the item of each record of some texts to a taker of none, in order, and returns the taker.
/// A reader is asked for 64 KiB at once, or less where there are many.
pub fn read_texts<R: Read + Drop, T: TakeItems>(
    alloc: Global,
    layout: &Layout,
    first: R,
    others: Vec<R>,
    taker: T,
) -> Result<T, TextError>
    requires none { T.weight_taken taker ≡ 0 }
    ensures items { IfOk result (λ taken. TakesItems T.with_item
        (texts_known R.remaining layout.now (first ∷ others.items)) taker taken) }
    ensures refused { IfErr result (λ error.
        TextsRefused (texts_known R.remaining layout.now (first ∷ others.items)) error) }
{
    let len = read_len(others.len().saturating_add(1));
    let texts = open_all(alloc, first, others, len, layout)?;
    let mut taker = taker;
    let mut bad = 0;
    read_all(alloc, texts, &mut taker, &mut bad, layout)?;
    layout.set_bad_count(bad);
    Ok(taker)
}

/// Hands the item of each record to a taker of none, in order, and returns the taker. A layout says
/// where the key and the weight stand.
///
/// Each text is opened first and its header read, so that a column that a header hasn't is a fault
/// before any record is one. Then the first record that fails a test, or that the taker has no
/// memory for, ends the reading, as does a reader that fails. Records are numbered from 1 over all
/// texts, and a header is none of them.
pub fn read_records<R: Read + Drop, T: TakeItems>(
    alloc: Global,
    records: Records<R>,
    taker: T,
) -> Result<T, TextError>
    requires none { T.weight_taken taker ≡ 0 }
    ensures items { IfOk result (λ taken.
        TakesItems T.with_item (records_known R.remaining records) taker taken) }
    ensures refused { IfErr result (λ error.
        TextsRefused (records_known R.remaining records) error) }
{
    let Records {
        layout,
        first,
        others,
    } = records;
    read_texts(alloc, &layout, first, others, taker)
}

/// Hands the item of each record of a reader to a taker of none, in order, and returns the taker.
/// Records and their tests are those of [`read_stream`], so each weight is at least 1.
///
/// The first record that fails a test, or that the taker has no memory for, ends the reading, as
/// does a reader that fails. [`TextError::NoColumn`] doesn't come. A read that a signal interrupts
/// is tried again.
pub fn read_items<R: Read + Drop, T: TakeItems>(
    alloc: Global,
    reader: R,
    taker: T,
) -> Result<T, TextError>
    requires none { T.weight_taken taker ≡ 0 }
    ensures items { IfOk result (λ taken.
        TakesItems T.with_item (text_known (R.remaining reader)) taker taken) }
    ensures refused { IfErr result (λ error.
        TextsRefused (text_known (R.remaining reader)) error) }
{
    read_records(alloc, Records::of_reader(alloc, reader), taker)
}

/// The stream of a text of records, each a key and, after a comma, its weight. A record of one
/// field has weight 1. Records are what `csv` reads: there is no header row, fields may be quoted,
/// and a key may be any 1 to 4,096 bytes.
///
/// The first record that fails a test ends the reading: the error has its number, from 1 on, and
/// the cause. [`TextError::NoColumn`] doesn't come. A read that a signal interrupts is tried again.
pub fn read_stream<R: Read + Drop>(alloc: Global, reader: R) -> Result<Stream, TextError>
    ensures stream { IfOk result (λ stream.
        ReadsAs (text_known (R.remaining reader)) (Ok stream)) }
    ensures refused { IfErr result (λ error.
        TextsRefused (text_known (R.remaining reader)) error) }
{
    read_items(alloc, reader, Stream::new(alloc))
}
