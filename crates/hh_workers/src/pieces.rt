//! What passes go over: pieces of any kind, each of which has items.

ghost use Rattle.std.specs.Prelude.{◌≡◌, ◌+◌, ◌<◌, ℕ, List, All, fold, length, sum};
ghost use Rattle.std.specs.Prelude.{IfOk, IsErrOf, OnOk, ◌⊎◌};
ghost use Rattle.hh_stream.specs.Weights.{Entry, max_total, total_of};
ghost use Rattle.hh_stream.specs.Cuttings.{pieces_of};
ghost use Rattle.hh_stream.specs.Taking.{Takes};
ghost use Rattle.hh_workers.specs.Pieces.{piece_of};

use hh_stream::{Cutting, MAX_TOTAL, PieceFault, Stream, TakeItems};
use std::alloc::{AllocError, Global};
use std::marker::Model;

/// What was given, where nothing but memory can have been refused.
pub fn only_memory<T>(given: Result<T, PieceFault>) -> Result<T, AllocError>
    requires { ¬ IsErrOf given PieceFault.Refused }
    ensures { IfOk result (λ value. given ≡ Ok value) }
{
    match given {
        Ok(value) => Ok(value),
        Err(PieceFault::Memory) => Err(AllocError),
        Err(PieceFault::Refused) => unreachable!("pieces that fit are not refused"),
    }
}

/// Pieces, each of which has items, in order: a cut stream, or pieces of a text that are read where
/// they are asked for. Several workers may ask at once.
pub trait Pieces {
    // The items of each piece, where they are known. Of a piece that can't be read it is any list.
    ghost pieces: { Self → List (List Entry) };

    // That the items are known: each reading of a piece gives the same ones. Of a file of the
    // system they aren't, since it can change between two readings.
    ghost known: { Self → Type 0 };

    // What is known of a piece that was refused although its items fit.
    ghost refuses: { Self → ℕ → Type 0 };

    /// How many pieces there are.
    fn count(&self) -> usize
        ensures { result ≡ length (pieces self.now) };

    /// Hands the items of a piece to the taker, one after the other. After a refusal the taker may
    /// have taken some of them, and is to be given up.
    fn feed<T: TakeItems>(
        &self,
        alloc: Global,
        piece: usize,
        taker: &mut T,
    ) -> Result<(), PieceFault>
        requires { piece < length (pieces self.now) }
        ensures taken { OnOk result (Takes T.with_item T.weight_taken taker.old taker.new
            (λ xs. known self.now → xs ≡ piece_of (pieces self.now) piece)) }
        ensures refused { IsErrOf result PieceFault.Refused → known self.now
            → refuses self.now piece ⊎ (max_total
            < T.weight_taken taker.old + total_of (piece_of (pieces self.now) piece)) };
}

/// A stream in the pieces of a cutting. A contract sees the list of the pieces.
#[derive(Drop)]
pub struct CutStream<'a> {
    stream: &'a Stream,
    cutting: &'a Cutting,
}

impl<'a> Model for CutStream<'a> {
    ghost use Rattle.std.specs.Prelude.{◌≡◌, List, length, sum};
    ghost use Rattle.hh_stream.specs.Weights.{Entry};
    ghost use Rattle.hh_stream.specs.Cuttings.{pieces_of};

    ghost Value = { List (List Entry) };

    ghost view = { λ pieces. pieces_of pieces.cutting.now pieces.stream.now };

    ghost invariant = { λ pieces. sum pieces.cutting.now ≡ length pieces.stream.now };
}

impl<'a> CutStream<'a> {
    /// The stream in the pieces of a cutting of as many items.
    pub fn new(stream: &'a Stream, cutting: &'a Cutting) -> CutStream<'a>
        requires { sum cutting.now ≡ length stream.now }
        ensures { result ≡ pieces_of cutting.now stream.now }
    {
        CutStream { stream, cutting }
    }
}

impl<'a> Pieces for CutStream<'a> {
    ghost pieces = { λ pieces. pieces };

    ghost known = { λ _. Unit };

    ghost refuses = { λ _ _. ⊥ };

    fn count(&self) -> usize {
        self.cutting.count()
    }

    fn feed<T: TakeItems>(
        &self,
        alloc: Global,
        piece: usize,
        taker: &mut T,
    ) -> Result<(), PieceFault> {
        for item in self.cutting.piece(self.stream, piece) {
            if item.weight() > MAX_TOTAL - taker.total() {
                return Err(PieceFault::Refused);
            }
            taker.take(alloc, item.key().bytes(), item.weight())?;
        }
        Ok(())
    }
}
