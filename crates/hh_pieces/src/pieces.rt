//! Pieces of a text of records, each of which is read by itself.

ghost use Rattle.std.specs.Bool.{OnTrue};
ghost use Rattle.std.specs.Prelude.{◌≡◌, ◌≤◌, ◌∷◌, [], ℕ, List, None, Some, true, map, IfOk, IfErr, IfSome, OnOk};
ghost use Rattle.hh_stream.specs.Weights.{max_total};
ghost use Rattle.hh_stream.specs.Taking.{Takes};
ghost use Rattle.hh_records.specs.Layouts.{RowsRefused, parts_at, rows_in};
ghost use Rattle.hh_records.specs.Formats.{byte_between, part_said};
ghost use Rattle.hh_pieces.specs.Lines as spec;
ghost use Rattle.hh_pieces.specs.Lines.{CutsWithin, filled_lines, line_parts};
ghost use Rattle.hh_pieces.specs.Pieces.{PieceAdds, parts_in};

use crate::cuts::mark_len;
use crate::lines::{FieldPlaces, LineCut, cut_of, is_separator, read_lines, sees_no_quote};
use hh_faults::TextError;
use hh_records::{ColumnIndices, Columns, Format, Layout, read_rows};
use hh_stream::TakeItems;
use std::alloc::Global;

/// Whether `csv` cuts a text of this layout, but for its quotes, into lines, and these at each
/// delimiter or not at all.
fn has_plain_lines(layout: &Layout) -> bool
    ensures separated { OnTrue result
        (spec.is_separator (byte_between layout.now.format layout.now.delimiter) ≡ true) }
    ensures parts { OnTrue result ((lines : List (List ℕ)) → map (parts_at layout.now None)
        (map (spec.line_fields (byte_between layout.now.format layout.now.delimiter)) lines)
        ≡ map (line_parts (part_said layout.now.part)
        (spec.cut_of layout.now.format layout.now.delimiter)) lines) }
{
    match layout.format {
        Format::Csv | Format::Unquoted => is_separator(layout.delimiter),
        Format::Squeezed | Format::Json => false,
        Format::Lines => true,
    }
}

/// Gives where the fields of the key and the weight stand, if the key is one.
fn field_places(columns: &ColumnIndices) -> Option<FieldPlaces>
    ensures { IfSome result (λ at. (columns.now.key.items ≡ at.key ∷ [])
        × (columns.now.weight ≡ at.weight)) }
{
    if columns.key.len() != 1 {
        return None;
    }
    Some(FieldPlaces {
        key: columns.key[0],
        weight: columns.weight,
    })
}

/// Gives how lines are cut whose fields are records of `layout` with these `columns`.
fn column_cut(layout: &Layout, columns: &ColumnIndices) -> Option<LineCut>
    ensures apart { spec.is_separator (byte_between layout.now.format layout.now.delimiter) ≡ true
        → IfSome result CutsWithin }
    ensures parts { IfSome result (λ cut. (lines : List (List ℕ)) →
        map (parts_at layout.now (Some (columns.now.key.items, columns.now.weight)))
        (map (spec.line_fields (byte_between layout.now.format layout.now.delimiter)) lines)
        ≡ map (line_parts (part_said layout.now.part) cut) lines) }
{
    match layout.format {
        Format::Csv | Format::Unquoted => match field_places(columns) {
            Some(at) => Some(LineCut::Columns(layout.delimiter, at)),
            None => None,
        },
        Format::Squeezed | Format::Lines | Format::Json => None,
    }
}

/// How the lines of a piece are cut, where `csv` cuts it into lines but for its quotes.
fn line_cut(layout: &Layout, columns: &Columns) -> Option<LineCut>
    ensures separated { IfSome result (λ _.
        spec.is_separator (byte_between layout.now.format layout.now.delimiter) ≡ true) }
    ensures apart { IfSome result CutsWithin }
    ensures parts { IfSome result (λ cut. (bytes : List ℕ) (lines : List (List ℕ)) →
        rows_in layout.now bytes
        ≡ map (spec.line_fields (byte_between layout.now.format layout.now.delimiter)) lines
        → parts_in layout.now columns.now bytes
        ≡ map (line_parts (part_said layout.now.part) cut) lines) }
{
    if !has_plain_lines(layout) {
        return None;
    }
    match columns.indices() {
        Some(columns) => column_cut(layout, columns),
        None => Some(cut_of(layout.format, layout.delimiter)),
    }
}

/// Whether lines are cut by themselves of a text that has quotes in others.
pub(crate) fn has_quotes_apart(layout: &Layout, columns: &Columns) -> bool {
    layout.format.has_quotes() && line_cut(layout, columns).is_some()
}

/// What stands after a byte order mark, and how its lines are cut, where a piece of a text can be
/// read line by line.
fn plain_text<'t>(
    layout: &Layout,
    columns: &Columns,
    piece: &'t [u8],
) -> Option<(&'t [u8], LineCut)>
    ensures apart { IfSome result (λ text. CutsWithin text.1) }
    ensures parts { IfSome result (λ text. parts_in layout.now columns.now piece.now
        ≡ map (line_parts (part_said layout.now.part) text.1) (filled_lines text.0.now)) }
{
    let Some(cut) = line_cut(layout, columns) else {
        return None;
    };
    let text = &piece[mark_len(piece)..];
    let quoting = layout.format.has_quotes();
    if sees_no_quote(text, quoting) {
        Some((text, cut))
    } else {
        None
    }
}

/// Hands on what the whole records of `piece`, a part of a text, add by its `columns`, and counts
/// all records, with the number of those `before`, and those that are `bad` and count as the key of
/// the layout. They are read line by line or, where that can't be, by `csv`.
pub(crate) fn read_piece<T: TakeItems>(
    alloc: Global,
    layout: &Layout,
    columns: &Columns,
    piece: &[u8],
    before: u64,
    bad: &mut u64,
    taker: &mut T,
) -> Result<u64, TextError>
    requires bounded { T.weight_taken taker.old ≤ max_total }
    ensures items { IfOk result (λ after.
        Takes T.with_item T.weight_taken taker.old taker.new (λ xs.
        PieceAdds layout.now columns.now before (T.weight_taken taker.old) piece.now xs after)) }
    ensures bounded { OnOk result (T.weight_taken taker.new ≤ max_total) }
    ensures refused { IfErr result (λ error. RowsRefused layout.now before
        (T.weight_taken taker.old) (Some (parts_in layout.now columns.now piece.now)) error) }
{
    let after = match plain_text(layout, columns, piece) {
        Some((text, cut)) => read_lines(alloc, text, cut, before, taker, bad, layout)?,
        None => read_rows(alloc, piece, columns, before, taker, bad, layout)?,
    };
    Ok(after)
}
