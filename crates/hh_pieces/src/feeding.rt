//! Pieces that are read from a reader, each by itself.

ghost use Rattle.std.specs.Io.KnownBytes.{prepend_known};
ghost use Rattle.std.specs.Prelude.{◌≡◌, ◌≤◌, Some, option_map, IfSome, OnOk};
ghost use Rattle.hh_stream.specs.Weights.{max_total};
ghost use Rattle.hh_pieces.specs.CutTexts.{piece_fault, piece_items};
ghost use Rattle.hh_pieces.specs.Windows.{held_in};
ghost use Rattle.hh_stream.specs.Taking.{Takes};

use crate::texts::{MOST_HELD, choose_columns, read_window};
use crate::window::Window;
use hh_faults::TextError;
use hh_records::{Columns, Layout};
use hh_stream::{PieceFault, TakeItems};
use std::alloc::Global;
use std::io::Read;
use std::sync::atomic::{AtomicU64, Ordering};

/// Converts the `error` of reading a piece. Only that memory ran out is kept; for all else the
/// piece is refused, without the cause.
fn piece_fault(error: TextError) -> PieceFault
    ensures { result ≡ piece_fault error }
{
    match error {
        TextError::Memory => PieceFault::Memory,
        TextError::ReadFault | TextError::NoColumn | TextError::BadRecord { .. } => {
            PieceFault::Refused
        }
    }
}

/// Hands the items of a piece to `taker`, of which `window` holds the start and `piece` has the
/// rest, as [`feed_left`] does.
fn feed_by<R: Read, T: TakeItems>(
    alloc: Global,
    layout: &Layout,
    columns: &Columns,
    window: &mut Window,
    piece: &mut R,
    last_bad: &AtomicU64,
    taker: &mut T,
) -> Result<(), PieceFault>
    ensures items { OnOk result
        (Takes T.with_item T.weight_taken taker.old taker.new (λ xs.
        IfSome (prepend_known (held_in window.old) (R.remaining piece.old)) (λ bytes.
        piece_items layout.now (Some columns.now, bytes) ≡ Some xs))) }
    ensures bounded { OnOk result (T.weight_taken taker.new ≤ max_total) }
{
    // The contract of `total` says that what was taken before is in range.
    let _total = taker.total();
    let mut bad = 0;
    let taken = match read_window(alloc, columns, window, piece, 0, taker, &mut bad, layout) {
        Ok(taken) => taken,
        Err(error) => return Err(piece_fault(error)),
    };
    if taken.outside {
        let last = last_bad.swap(bad, Ordering::SeqCst);
        layout.replace_bad_count(last, bad);
        return Ok(());
    }
    Err(PieceFault::Refused)
}

/// Hands the items of `piece`, which has about `len` bytes left, to `taker`. Without `columns` the
/// first records choose them, and there has to be one. Each byte is read once, into a buffer that
/// no record outgrows. After an error `taker` may hold any number of the items. Without one,
/// `last_bad` has how many records were bad, and so has the layout in its sum.
pub(crate) fn feed_left<R: Read, T: TakeItems>(
    alloc: Global,
    layout: &Layout,
    columns: Option<&Columns>,
    piece: &mut R,
    len: usize,
    last_bad: &AtomicU64,
    taker: &mut T,
) -> Result<(), PieceFault>
    ensures items { OnOk result
        (Takes T.with_item T.weight_taken taker.old taker.new (λ xs.
        IfSome (R.remaining piece.old) (λ bytes. piece_items layout.now
        (option_map (λ c. c.now) columns.entry, bytes) ≡ Some xs))) }
    ensures bounded { OnOk result (T.weight_taken taker.new ≤ max_total) }
{
    let mut window = Window::new(alloc, len.saturating_add(1).min(MOST_HELD))?;
    if let Some(columns) = columns {
        feed_by(alloc, layout, columns, &mut window, piece, last_bad, taker)?;
        return Ok(());
    }
    let (Some(columns), true) = (match choose_columns(alloc, &mut window, piece, layout) {
        Ok(chosen) => chosen,
        Err(error) => return Err(piece_fault(error)),
    }) else {
        return Err(PieceFault::Refused);
    };
    feed_by(alloc, layout, &columns, &mut window, piece, last_bad, taker)?;
    Ok(())
}
