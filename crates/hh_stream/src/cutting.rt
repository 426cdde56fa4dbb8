//! Cuttings of a stream into consecutive pieces.

ghost use Rattle.std.specs.Prelude.{◌≡◌, ◌≢◌, ◌<◌, ◌≤◌, ◌^◌, ◌↔◌, [], true, false, length, sum, slice_index_or, IsTrue, OnOk, OnErr, IfOk, IfErr, IsErrOf};
ghost use Rattle.hh_stream.specs.Faults.{IsPiecesFault, IsLengthsFault};
ghost use Rattle.hh_stream.specs.Weights.{AreItems, max_total, total_of};
ghost use Rattle.hh_stream.specs.Cuttings.{max_pieces, even_lengths, pieces_of, whole_of};
ghost use Rattle.hh_stream.specs.Ranges.{in_range};

use crate::fault::StreamFault;
use crate::stream::{Item, Stream};
use std::alloc::{AllocError, Global};
use std::marker::Model;

/// The most pieces of a cutting.
pub const MAX_PIECES: usize = 1024;

/// A cutting of a stream into 1 to [`MAX_PIECES`] consecutive pieces, some of which may be empty. A
/// contract sees the list of the pieces' lengths.
#[derive(Debug, Drop)]
pub struct Cutting {
    lengths: Vec<usize>,
    len: usize,
}

impl Model for Cutting {
    ghost use Rattle.std.specs.Prelude.{ℕ, List, ◌≡◌, sum};
    ghost use Rattle.hh_stream.specs.Cuttings.{IsCutting};

    ghost Value = { List ℕ };

    ghost view = { λ cutting. cutting.lengths.items };

    ghost invariant = { λ cutting. IsCutting cutting.lengths.items
        × (cutting.len ≡ sum cutting.lengths.items) };
}

/// Refuses a number of pieces that is 0 or too large.
fn check_count(pieces: usize) -> Result<(), StreamFault>
    ensures no_pieces { IsErrOf result StreamFault.NoPieces ↔ (pieces ≡ 0) }
    ensures too_many { IsErrOf result StreamFault.TooManyPieces ↔ (max_pieces < pieces) }
    ensures faults { IfErr result IsPiecesFault }
    ensures within { OnOk result (in_range pieces max_pieces ≡ true) }
    ensures outside { OnErr result (in_range pieces max_pieces ≡ false) }
{
    if pieces == 0 {
        return Err(StreamFault::NoPieces);
    }
    if pieces > MAX_PIECES {
        return Err(StreamFault::TooManyPieces);
    }
    Ok(())
}

/// Whether the lengths add up to `len`.
fn adds_up(lengths: &[usize], len: usize) -> bool
    ensures { IsTrue result ↔ (sum lengths.now ≡ len) }
{
    let mut left = len;
    for length in lengths {
        if *length > left {
            return false;
        }
        left -= *length;
    }
    left == 0
}

/// The lengths of `pieces` even pieces of `len` items.
fn even_lengths(alloc: Global, len: usize, pieces: usize) -> Result<Vec<usize>, AllocError>
    requires { 0 < pieces }
    ensures { IfOk result (λ lengths. lengths.items ≡ even_lengths len pieces) }
{
    let mut lengths = Vec::new(alloc);
    for i in 0..pieces {
        lengths.push(len / pieces + usize::from(i < len % pieces))?;
    }
    Ok(lengths)
}

/// The sum of the lengths.
fn sum_of(lengths: &[usize]) -> usize
    requires { sum lengths.now < 2 ^ 64 }
    ensures { result ≡ sum lengths.now }
{
    lengths.iter().sum()
}

impl Cutting {
    /// Cuts `len` items into `pieces` pieces: each has `len / pieces` items, and one more where its
    /// number is below `len % pieces`. The error is the first of `NoPieces`, `TooManyPieces` and
    /// `Memory` that holds.
    pub fn even(alloc: Global, len: usize, pieces: usize) -> Result<Cutting, StreamFault>
        ensures even { IfOk result (λ cutting. cutting ≡ even_lengths len pieces) }
        ensures adds_up { IfOk result (λ cutting. sum cutting ≡ len) }
        ensures pieces { IfOk result (λ cutting. length cutting ≡ pieces) }
        ensures no_pieces { IsErrOf result StreamFault.NoPieces ↔ (pieces ≡ 0) }
        ensures too_many { IsErrOf result StreamFault.TooManyPieces ↔ (max_pieces < pieces) }
        ensures faults { IfErr result IsPiecesFault }
    {
        check_count(pieces)?;
        Ok(Cutting::of_pieces(alloc, len, pieces)?)
    }

    /// [`even`](Cutting::even) in 1 to [`MAX_PIECES`] pieces, where only memory can be refused.
    pub fn of_pieces(alloc: Global, len: usize, pieces: usize) -> Result<Cutting, AllocError>
        requires { in_range pieces max_pieces ≡ true }
        ensures even { IfOk result (λ cutting. cutting ≡ even_lengths len pieces) }
        ensures adds_up { IfOk result (λ cutting. sum cutting ≡ len) }
        ensures pieces { IfOk result (λ cutting. length cutting ≡ pieces) }
    {
        let lengths = even_lengths(alloc, len, pieces)?;
        Ok(Cutting { lengths, len })
    }

    /// `len` items in pieces of these lengths. The error is the first of `NoPieces`,
    /// `TooManyPieces`, `WrongSum` and `Memory` that holds.
    pub fn by_lengths(alloc: Global, len: usize, lengths: &[usize]) -> Result<Cutting, StreamFault>
        ensures lengths { IfOk result (λ cutting. cutting ≡ lengths.now) }
        ensures adds_up { IfOk result (λ cutting. sum cutting ≡ len) }
        ensures no_pieces { IsErrOf result StreamFault.NoPieces ↔ (length lengths.now ≡ 0) }
        ensures too_many { IsErrOf result StreamFault.TooManyPieces
            ↔ (max_pieces < length lengths.now) }
        ensures wrong_sum { IsErrOf result StreamFault.WrongSum
            ↔ ((in_range (length lengths.now) max_pieces ≡ true) × (sum lengths.now ≢ len)) }
        ensures faults { IfErr result IsLengthsFault }
    {
        check_count(lengths.len())?;
        if !adds_up(lengths, len) {
            return Err(StreamFault::WrongSum);
        }
        let lengths = lengths.to_vec(alloc)?;
        Ok(Cutting { lengths, len })
    }

    /// The number of pieces.
    pub fn count(&self) -> usize
        ensures count { result ≡ length self.now }
        ensures some { 0 < result }
        ensures few { result ≤ max_pieces }
    {
        self.lengths.len()
    }

    /// The number of items.
    pub fn len(&self) -> usize
        ensures { result ≡ sum self.now }
    {
        self.len
    }

    /// Whether there is no item.
    pub fn is_empty(&self) -> bool
        ensures { IsTrue result ↔ (sum self.now ≡ 0) }
    {
        self.len == 0
    }

    /// Piece `i` of a stream with as many items, borrowed. The pieces, one after the other, are the
    /// stream.
    pub fn piece<'a>(&self, stream: &'a Stream, i: usize) -> &'a [Item]
        requires same_len { sum self.now ≡ length stream.now }
        requires within { i < length self.now }
        ensures piece { result.now ≡ slice_index_or (pieces_of self.now stream.now) i [] }
        ensures whole { whole_of (pieces_of self.now stream.now) ≡ stream.now }
        ensures lawful { AreItems result.now }
        ensures bounded { total_of result.now ≤ max_total }
        ensures stream { total_of stream.now ≤ max_total }
    {
        let start = sum_of(&self.lengths[..i]);
        let length = self.lengths[i];
        &stream.items()[start..start + length]
    }
}
