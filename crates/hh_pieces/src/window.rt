//! What is held of the bytes that a reader gave.

ghost use Rattle.std.specs.Prelude.{◌≡◌, ◌≤◌, ◌<◌, ◌+◌, ◌++◌, ℕ, List, [], drop, length, IfOk, OnOk};
ghost use Rattle.std.specs.Io.KnownBytes.{Consumes, IsAtEnd};

use hh_stream::retrying::read;
use std::alloc::{AllocError, Global};
use std::io::{self, Read};

/// Makes `len` zeros.
pub(crate) fn zeros(alloc: Global, len: usize) -> Result<Vec<u8>, AllocError>
    ensures { IfOk result (λ zeros. length zeros.items ≡ len) }
{
    vec![in alloc; 0u8; len]
}

/// A buffer, and the place and the number of those of its bytes that are held.
#[derive(Drop)]
pub(crate) struct Window {
    bytes: Vec<u8>,
    from: usize,
    held: usize,
    ghost within: { from + held ≤ length bytes.items },
}

impl Window {
    ghost use Rattle.hh_pieces.specs.Windows.{held_in};

    // A window that holds no bytes and has room for `room`.
    pub(crate) fn new(alloc: Global, room: usize) -> Result<Window, AllocError>
        ensures { IfOk result (λ window. held_in window ≡ []) }
    {
        let bytes = zeros(alloc, room)?;
        Ok(Window {
            bytes,
            from: 0,
            held: 0,
        })
    }

    // The bytes that it holds.
    pub(crate) fn held(&self) -> &[u8]
        ensures { result.now ≡ held_in self.now }
    {
        &self.bytes[self.from..self.from + self.held]
    }

    // How many bytes it holds.
    pub(crate) fn len(&self) -> usize
        ensures { result ≡ length (held_in self.now) }
    {
        self.held
    }

    // Moves the bytes that it holds to the front of the buffer.
    fn move_to_front(&mut self)
        ensures held { held_in self.new ≡ held_in self.old }
        ensures front { self.new.from ≡ 0 }
    {
        let from = self.from;
        let end = from + self.held;
        self.bytes.as_mut_slice().copy_within(from..end, 0);
        self.from = 0;
    }

    // Gets room for one byte more. The bytes are moved to the front where there are fewer of them
    // than were removed before them, or the buffer has `most` bytes. A full one gets twice as long,
    // but no longer than `most` where that is enough.
    pub(crate) fn make_room(&mut self, most: usize) -> Result<(), AllocError>
        ensures held { OnOk result (held_in self.new ≡ held_in self.old) }
        ensures room { OnOk result (self.new.from + self.new.held
            < length self.new.bytes.items) }
    {
        let is_full = self.from + self.held == self.bytes.len();
        if self.held < self.from || is_full && most <= self.bytes.len() {
            self.move_to_front();
        }
        let len = self.bytes.len();
        if self.from + self.held < len {
            return Ok(());
        }
        let Some(least) = len.checked_add(1) else {
            return Err(AllocError);
        };
        self.bytes
            .resize(len.saturating_mul(2).min(most).max(least), 0u8)
    }

    // Reads once, into the room after the bytes that it holds.
    pub(crate) fn read_more<R: Read>(&mut self, reader: &mut R) -> io::Result<usize>
        requires room { self.old.from + self.old.held < length self.old.bytes.items }
        ensures more { IfOk result (λ count. (more : List ℕ) × (length more ≡ count)
            × (held_in self.new ≡ held_in self.old ++ more)
            × Consumes (R.remaining reader.old) (R.remaining reader.new) more) }
        ensures end { IfOk result (λ count. count ≡ 0 → IsAtEnd (R.remaining reader.new)) }
    {
        let end = self.from + self.held;
        let count = read(reader, &mut self.bytes[end..])?;
        self.held += count;
        Ok(count)
    }

    // Removes `count` bytes at the front.
    pub(crate) fn remove(&mut self, count: usize)
        requires { count ≤ length (held_in self.old) }
        ensures { held_in self.new ≡ drop count (held_in self.old) }
    {
        self.from += count;
        self.held -= count;
    }
}
