//! Files that are cut into pieces, each of which is read by itself, in memory that doesn't grow.

ghost use Rattle.std.specs.Prelude.{◌≡◌, ◌≤◌, ◌<◌, ◌++◌, ℕ, true, List, [], Option, None, Some, drop, get_or, length, map, IfOk, IfSome, OnOk};
ghost use Rattle.hh_stream.specs.Weights.{Entry, max_total};
ghost use Rattle.hh_pieces.specs.CutFiles.{AddsSpans, CutsBytes, file_piece, span_bytes};
ghost use Rattle.hh_pieces.specs.CutTexts.{AreReadByPieces, piece_items};
ghost use Rattle.hh_stream.specs.Taking.{Takes};
ghost use Rattle.hh_records.specs.Layouts.{every};
ghost use Rattle.hh_pieces.specs.Pieces.{begins_with_feed};

use crate::feeding::feed_left;
use crate::laws::{feeds_outside_quotes_are_cuts, pieces_are_read};
use crate::read_at::{ReadAt, read_between};
use crate::texts::choose_columns;
use crate::window::{Window, zeros};
use hh_faults::TextError;
use hh_records::{Columns, Layout};
use hh_stream::{PieceFault, TakeItems};
use memchr::memchr;
use std::alloc::{AllocError, Global};
use std::marker::Model;
use std::sync::atomic::AtomicU64;

/// The bytes of a file from a place up to another.
#[derive(Clone, Copy)]
pub(crate) struct Span {
    pub(crate) from: u64,
    pub(crate) to: u64,
}

/// A piece of the source with the index `source`: the bytes in `span`, whose records are read by
/// `columns`. The first piece of a source has none, since it chooses them from its own records.
#[derive(Drop)]
pub(crate) struct FilePiece {
    pub(crate) source: usize,
    pub(crate) columns: Option<Columns>,
    pub(crate) span: Span,
    /// How many of its records were bad when it was read last.
    pub(crate) bad: AtomicU64,
}

/// Files in pieces, or other sources of bytes that are read at any place. In contracts it is how
/// many pieces there are and, where all bytes are known, what each is: its items, or nothing of a
/// piece that can't be read by itself.
#[derive(Drop)]
pub struct CutFiles<'t, S: ReadAt> {
    layout: &'t Layout,
    sources: &'t [S],
    pieces: Vec<FilePiece>,
    count: usize,
}

impl<'t, S: ReadAt> Model for CutFiles<'t, S> {
    ghost use Rattle.std.specs.Prelude.{max, length, map, option_map};
    ghost use Rattle.hh_pieces.specs.CutFiles.{FilePieces, file_piece};
    ghost use Rattle.hh_pieces.specs.CutTexts.{padded, piece_items};
    ghost use Rattle.hh_records.specs.Layouts.{every};

    ghost Value = { FilePieces };

    ghost view = { λ files. record {
      count = max files.count (length files.pieces.items);
      pieces = option_map (λ texts. padded files.count
          (map (λ piece. piece_items files.layout.now (file_piece texts piece)) files.pieces.items))
          (every S.bytes files.sources.now);
    } };
}

// The fewest bytes of a piece, but of a file's last.
const LEAST_LEN: u64 = 65_536;

// Where the last piece of a source ends: wherever its bytes do.
const LAST: u64 = u64::MAX;

// How many bytes are read at once where a line feed is looked for.
const READ_LEN: usize = 65_536;

// How many reads look for a line feed after a place. If none finds one, the rest of the source is
// one piece.
const MOST_READS: usize = 16;

/// Finds the first line feed at or after `from`, in at most [`MOST_READS`] reads of `source` into
/// `buffer`. It gives `None` if they show none, the source ends before one, or a read fails.
fn find_feed<S: ReadAt>(source: &S, buffer: &mut [u8], from: u64) -> Option<u64>
    ensures after { IfSome result (λ at. from ≤ at) }
    ensures feed { IfSome result (λ at. IfSome (S.bytes source.now) (λ bytes.
        begins_with_feed (drop at bytes) ≡ true)) }
{
    let mut at = from;
    for _ in 0..MOST_READS {
        let Ok(count) = source.read_at(buffer, at) else {
            return None;
        };
        if count == 0 {
            return None;
        }
        if let Some(feed) = memchr(b'\n', &buffer[..count]) {
            return at.checked_add(feed as u64);
        }
        at = at.checked_add(count as u64)?;
    }
    None
}

/// Cuts a source of `len` bytes into spans of about `size`. The last has what the source has grown
/// by meanwhile, too.
fn spans_of<S: ReadAt>(
    alloc: Global,
    source: &S,
    buffer: &mut [u8],
    len: u64,
    size: u64,
) -> Result<Vec<Span>, AllocError>
    requires len { IfSome (S.bytes source.now) (λ bytes. len ≡ length bytes) }
    requires some { 0 < size }
    ensures { IfOk result (λ spans. IfSome (S.bytes source.now) (λ bytes.
        CutsBytes bytes spans.items)) }
{
    let mut spans = Vec::new(alloc);
    let mut from = 0u64;
    for _ in 0..len / size {
        let Some(least) = from.checked_add(size) else {
            break;
        };
        let Some(to) = find_feed(source, buffer, least) else {
            break;
        };
        if to >= len {
            break;
        }
        spans.push(Span { from, to })?;
        from = to;
    }
    spans.push(Span { from, to: LAST })?;
    Ok(spans)
}

/// Adds a piece for each of the `later` spans of the source with this `number`, read by `columns`.
/// After an error, which is that memory ran out, some may have been added.
fn add_later(
    alloc: Global,
    pieces: &mut Vec<FilePiece>,
    number: usize,
    columns: &Columns,
    later: &[Span],
) -> Result<(), AllocError>
    ensures { OnOk result ((texts : List (List ℕ)) → map (file_piece texts) pieces.new.items
        ≡ map (file_piece texts) pieces.old.items
        ++ map (λ span. (Some columns.now, span_bytes (get_or texts number []) span)) later.now) }
{
    for span in later {
        let columns = Some(columns.copy(alloc)?);
        pieces.push(FilePiece {
            source: number,
            columns,
            span: *span,
            bad: AtomicU64::new(0),
        })?;
    }
    Ok(())
}

/// Adds the pieces of the source with this `number`, each of about `size` bytes, and gives whether
/// it did. It adds none if the length can't be read, or the columns can't be chosen from the first
/// piece. After an error, which is that memory ran out, some may have been added.
fn add_source<S: ReadAt>(
    alloc: Global,
    layout: &Layout,
    pieces: &mut Vec<FilePiece>,
    number: usize,
    source: &S,
    size: u64,
) -> Result<bool, AllocError>
    requires { 0 < size }
    ensures { IfOk result (λ is_added. is_added ≡ true → IfSome (S.bytes source.now) (λ text.
        AddsSpans layout.now number text pieces.old.items pieces.new.items)) }
{
    let Ok(len) = source.len() else {
        return Ok(false);
    };
    let mut buffer = zeros(alloc, READ_LEN)?;
    let spans = spans_of(alloc, source, &mut buffer, len, size)?;
    let Some((first, later)) = spans.split_first() else {
        return Ok(false);
    };
    let mut reader = read_between(source, first.from, first.to);
    let mut window = Window::new(alloc, READ_LEN)?;
    let columns = match choose_columns(alloc, &mut window, &mut reader, layout) {
        Ok((Some(columns), _)) => columns,
        Err(TextError::Memory) => return Err(AllocError),
        Ok((None, _)) | Err(_) => return Ok(false),
    };
    pieces.push(FilePiece {
        source: number,
        columns: None,
        span: *first,
        bad: AtomicU64::new(0),
    })?;
    add_later(alloc, pieces, number, &columns, later)?;
    Ok(true)
}

/// The size of a piece where sources of known lengths are cut into `count` pieces.
fn piece_size<S: ReadAt>(sources: &[S], count: usize) -> Option<u64>
    ensures { IfSome result (λ size. 0 < size) }
{
    let mut all = 0u64;
    for source in sources {
        let Ok(len) = source.len() else {
            return None;
        };
        all = all.saturating_add(len);
    }
    let spare = count.saturating_sub(sources.len()).max(1) as u64;
    Some((all / spare).saturating_add(1).max(LEAST_LEN))
}

/// The pieces of sources with this layout, at most `count`.
fn pieces_of<S: ReadAt>(
    alloc: Global,
    layout: &Layout,
    sources: &[S],
    count: usize,
) -> Result<Option<Vec<FilePiece>>, AllocError>
    ensures few { IfOk result (λ pieces. IfSome pieces (λ pieces. length pieces.items ≤ count)) }
    ensures read { IfOk result (λ pieces. IfSome pieces (λ pieces.
        IfSome (every S.bytes sources.now) (λ texts. AreReadByPieces layout.now texts
        (map (λ piece. piece_items layout.now (file_piece texts piece)) pieces.items)))) }
{
    feeds_outside_quotes_are_cuts();
    pieces_are_read();
    let Some(size) = piece_size(sources, count) else {
        return Ok(None);
    };
    let mut pieces = Vec::new(alloc);
    for (number, source) in sources.iter().enumerate() {
        if !add_source(alloc, layout, &mut pieces, number, source, size)? {
            return Ok(None);
        }
    }
    if pieces.len() > count {
        return Ok(None);
    }
    Ok(Some(pieces))
}

impl<'t, S: ReadAt> CutFiles<'t, S> {
    /// Cuts `sources`, whose records have this `layout`, into `count` pieces, the last of which may
    /// be empty. A file gets pieces by its share of all bytes, and at least one; each cut is just
    /// before a line feed. It gives `None` if there are more files than pieces, or a file's columns
    /// aren't found in its first piece, or its length or that piece can't be read.
    pub fn new(
        alloc: Global,
        layout: &'t Layout,
        sources: &'t [S],
        count: usize,
    ) -> Result<Option<CutFiles<'t, S>>, AllocError>
        ensures count { IfOk result (λ cut. IfSome cut (λ cut. cut.count ≡ count)) }
        ensures read { IfOk result (λ cut. IfSome cut (λ cut.
            IfSome (every S.bytes sources.now) (λ texts. (pieces : List (Option (List Entry)))
            × (cut.pieces ≡ Some pieces) × AreReadByPieces layout.now texts pieces))) }
    {
        let Some(pieces) = pieces_of(alloc, layout, sources, count)? else {
            return Ok(None);
        };
        layout.set_bad_count(0);
        Ok(Some(CutFiles {
            layout,
            sources,
            pieces,
            count,
        }))
    }

    /// How many pieces there are.
    pub fn count(&self) -> usize
        ensures count { result ≡ self.now.count }
        ensures pieces { IfSome self.now.pieces (λ pieces. length pieces ≡ self.now.count) }
    {
        self.count.max(self.pieces.len())
    }

    /// Hands the items of the piece with index `piece`, from 0 on, to `taker`, in order. Each byte
    /// is read once, into a buffer that grows only for a record that is longer than it, and nothing
    /// is kept. After an error `taker` may hold any number of the items.
    pub fn feed<T: TakeItems>(
        &self,
        alloc: Global,
        piece: usize,
        taker: &mut T,
    ) -> Result<(), PieceFault>
        requires { piece < self.now.count }
        ensures items { OnOk result
            (Takes T.with_item T.weight_taken taker.old taker.new (λ xs.
            IfSome self.now.pieces (λ pieces. get_or pieces piece None ≡ Some xs))) }
        ensures bounded { OnOk result (T.weight_taken taker.new ≤ max_total) }
    {
        let Some(part) = self.pieces.get(piece) else {
            // A piece after those that were cut is empty. `total` says that what was taken is in
            // range.
            let _total = taker.total();
            return Ok(());
        };
        let Some(source) = self.sources.get(part.source) else {
            return Err(PieceFault::Refused);
        };
        let Ok(len) = source.len() else {
            return Err(PieceFault::Refused);
        };
        let Span { from, to } = part.span;
        let len = len.min(to).saturating_sub(from).min(usize::MAX as u64) as usize;
        let mut bytes = read_between(source, from, to);
        let columns = part.columns.as_ref();
        feed_left(
            alloc,
            self.layout,
            columns,
            &mut bytes,
            len,
            &part.bad,
            taker,
        )
    }
}
