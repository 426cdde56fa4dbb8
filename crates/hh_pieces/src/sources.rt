//! Records in files, or in other bytes that are read at any place.

ghost use Rattle.std.specs.Prelude.{◌≡◌, All, IfErr, IfOk, IfSome, IsOk, OnOk};
ghost use Rattle.hh_records.specs.Layouts.{TextsRefused, every};
ghost use Rattle.hh_pieces.specs.Sources.{IsKnownStill, sources_known};
ghost use Rattle.hh_records.specs.Taking.{TakesItems};

use crate::read_at::{FromPlace, ReadAt, read_all};
use crate::texts::read_texts;
use hh_faults::TextError;
use hh_records::{Layout, ReadRecords};
use hh_stream::{KeyHash, TakeItems};
use std::alloc::{AllocError, Global};
use std::io::Read;

/// Records of what can be read at any place, so that they can be read again.
#[derive_where(Clone, Copy)]
pub struct SourceRecords<'s, S> {
    pub layout: &'s Layout,
    pub sources: &'s [S],
}

impl<'s, S: ReadAt> SourceRecords<'s, S> {
    /// Checks, once they were read, that no source was changed meanwhile. If one was, the error is
    /// [`TextError::ReadFault`].
    pub fn check(self) -> Result<(), TextError>
        ensures known { IfSome (every S.bytes self.entry.sources.now) (λ _. IsOk result) }
        ensures still { OnOk result (All S.still self.entry.sources.now) }
        ensures refused { IfErr result (λ fault. fault ≡ TextError.ReadFault) }
    {
        for source in self.sources {
            if source.check().is_err() {
                return Err(TextError::ReadFault);
            }
        }
        Ok(())
    }
}

/// What reads all bytes of each source.
fn readers_of<'s, S: ReadAt>(
    alloc: Global,
    sources: &'s [S],
) -> Result<Vec<FromPlace<'s, S>>, AllocError>
    ensures { IfOk result (λ readers. IsKnownStill (every S.bytes sources.now)
        (every ⟦<FromPlace<'s, S> as Read>⟧.remaining readers.items)) }
{
    let mut readers = Vec::new(alloc);
    for source in sources {
        readers.push(read_all(source))?;
    }
    Ok(readers)
}

impl<'s, S: ReadAt> ReadRecords for SourceRecords<'s, S> {
    ghost known = { λ records. sources_known S.bytes records };

    ghost hasher = { λ records. records.layout.now.hash };

    fn hash(&self) -> KeyHash {
        self.layout.hash
    }

    fn read_into<T: TakeItems>(self, alloc: Global, taker: T) -> Result<T, TextError> {
        let Some((first, others)) = self.sources.split_first() else {
            return Ok(taker);
        };
        let Ok(others) = readers_of(alloc, others) else {
            return Err(TextError::Memory);
        };
        read_texts(alloc, self.layout, read_all(first), others, taker)
    }
}
