//! What takes items, one after the other.

ghost use Rattle.std.specs.Prelude.{◌≡◌, ◌+◌, ◌<◌, ◌≤◌, ◌++◌, ◌∷◌, [], ℕ, OnErr, OnOk, length};
ghost use Rattle.hh_stream.specs.Weights.{Entry, max_key_len, max_total, total_of};
ghost use Rattle.hh_stream.specs.declared.taking.PieceFault.TheVariants.{Memory};

use crate::key::Key;
use crate::stream::Stream;
use std::alloc::{AllocError, Global};
use thiserror::Error;

/// What items are taken into, one after the other: a stream keeps them all, and others keep less.
pub trait TakeItems: Drop {
    // What an item more makes of a taker.
    ghost with_item: { Self → Entry → Self };

    // The sum of the weights of all items.
    ghost weight_taken: { Self → ℕ };

    /// Gives the sum of the weights of all items that were taken.
    fn total(&self) -> u64
        ensures total { result ≡ weight_taken self.now }
        ensures bounded { result ≤ max_total };

    /// Takes one more item, of the key with these bytes. An error says that the allocator had no
    /// memory, and then nothing was taken.
    fn take(&mut self, alloc: Global, key: &[u8], weight: u64) -> Result<(), AllocError>
        requires some { 0 < length key.now }
        requires few { length key.now ≤ max_key_len }
        requires positive { 0 < weight }
        requires room { weight_taken self.old + weight ≤ max_total }
        ensures taken { OnOk result (self.new ≡ with_item self.old (key.now, weight)) }
        ensures total { OnOk result (weight_taken self.new ≡ weight_taken self.old + weight) }
        ensures unchanged { OnErr result (self.new ≡ self.old) };
}

/// Why a piece, which is handed to a taker item by item, was not taken.
#[derive(Clone, Copy, Debug, PartialEq, Eq, Error)]
pub enum PieceFault {
    /// The allocator had no memory, or the system refused a thread.
    #[error("out of memory")]
    Memory,
    /// The piece can't be read by itself, or the weights add up to more than
    /// [`MAX_TOTAL`](crate::MAX_TOTAL).
    #[error("a piece was refused")]
    Refused,
}

impl From<AllocError> for PieceFault {
    ghost from_gives = { λ _ e. e ≡ Memory };

    fn from(_e: AllocError) -> PieceFault {
        PieceFault::Memory
    }
}

impl TakeItems for Stream {
    ghost with_item = { λ stream item. stream ++ item ∷ [] };

    ghost weight_taken = { total_of };

    fn total(&self) -> u64 {
        self.total()
    }

    fn take(&mut self, alloc: Global, key: &[u8], weight: u64) -> Result<(), AllocError> {
        self.push_within(Key::of_bytes(alloc, key)?, weight)
            .map_err(|_| AllocError)
    }
}
