//! Bytes that are read at any place.

ghost use Rattle.std.specs.Prelude.{◌≡◌, List, ℕ, Option, Some, drop, length, option_map, IfOk, IfSome, IsOk, OnOk, ⊤};
ghost use Rattle.std.specs.Io.{ReadsAtMost};
ghost use Rattle.hh_pieces.specs.Files.{GivesFrom, bytes_between};
ghost use Rattle.hh_pieces.specs.Sources.{IsKnownStill};

use std::io::{self, Error, ErrorKind, Read, Take};

/// Bytes that can be read at any place, also by several threads at once.
pub trait ReadAt {
    // all the bytes, where they are known
    ghost bytes: { Self → Option (List ℕ) };

    // the bytes that were read are there still
    ghost still: { Self → Type 0 };

    /// How many bytes there are. Of a file that grows there may be more by the time that they are
    /// read.
    fn len(&self) -> io::Result<u64>
        ensures { IfOk result (λ len. IfSome (bytes self.now) (λ bytes. len ≡ length bytes)) };

    /// Reads bytes from a place on, and none only at the end or with no room.
    fn read_at(&self, buf: &mut [u8], at: u64) -> io::Result<usize>
        ensures bound { ReadsAtMost result buf.new }
        ensures bytes { IfOk result (λ count. IfSome (bytes self.now) (λ bytes.
            GivesFrom bytes at count buf.new)) };

    /// Checks, once bytes were read, that these are there still. The error is that they were
    /// changed meanwhile, or that this can't be found out.
    fn check(&self) -> io::Result<()>
        ensures known { IfSome (bytes self.now) (λ _. IsOk result) }
        ensures still { OnOk result (still self.now) };
}

impl ReadAt for Vec<u8> {
    ghost bytes = { λ bytes. Some bytes.items };

    ghost still = { λ _. ⊤ };

    fn len(&self) -> io::Result<u64> {
        Ok(self.as_slice().len() as u64)
    }

    fn read_at(&self, buf: &mut [u8], at: u64) -> io::Result<usize> {
        let at = at.min(self.as_slice().len() as u64) as usize;
        let mut rest = &self.as_slice()[at..];
        rest.read(buf)
    }

    fn check(&self) -> io::Result<()> {
        Ok(())
    }
}

/// What reads bytes from a place on.
#[derive(Drop)]
pub(crate) struct FromPlace<'s, S> {
    source: &'s S,
    at: u64,
}

impl<'s, S: ReadAt> Read for FromPlace<'s, S> {
    ghost remaining = { λ reader. option_map (drop reader.at) (S.bytes reader.source.now) };

    fn read(&mut self, buf: &mut [u8]) -> io::Result<usize> {
        let count = self.source.read_at(buf, self.at)?;
        let Some(at) = self.at.checked_add(count as u64) else {
            return Err(Error::from(ErrorKind::InvalidInput));
        };
        self.at = at;
        Ok(count)
    }
}

/// What reads all bytes of `source`.
pub(crate) fn read_all<'s, S: ReadAt>(source: &'s S) -> FromPlace<'s, S>
    ensures { IsKnownStill (S.bytes source.now)
        (⟦<FromPlace<'s, S> as Read>⟧.remaining result) }
{
    FromPlace { source, at: 0 }
}

/// What reads the bytes of `source` from a place up to another, or as far as they go.
pub(crate) fn read_between<'s, S: ReadAt>(
    source: &'s S,
    from: u64,
    to: u64,
) -> Take<FromPlace<'s, S>>
    ensures { ⟦<Take<FromPlace<'s, S>> as Read>⟧.remaining result
        ≡ option_map (bytes_between from to) (S.bytes source.now) }
{
    FromPlace { source, at: from }.take(to.saturating_sub(from))
}
