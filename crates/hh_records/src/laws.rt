//! Laws of the definitions in `specs/`. Each function does nothing: its contract is the law.

ghost use Rattle.hh_records.specs.Laws.{KeysTellFields, PlainLayoutsReadStreams, PrintedNumbersAreRead, TextsAreItems};

/// What a text of bytes reads as are items, with a key and a weight each, as the law on files of
/// condensed records asks.
pub fn texts_are_items()
    ensures { TextsAreItems }
{}

/// A layout of fields between commas that names no column, has no header and allows no weight of 0
/// reads a text as its stream.
pub fn plain_layouts_read_streams()
    ensures { PlainLayoutsReadStreams }
{}

/// A number that is printed with digits after a point is read as the number.
pub fn printed_numbers_are_read()
    ensures { PrintedNumbersAreRead }
{}

/// Different fields of a key's columns are different keys: what `csv` writes of some fields is read
/// as these alone.
pub fn keys_tell_fields()
    ensures { KeysTellFields }
{}
