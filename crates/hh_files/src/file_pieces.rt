//! Files in pieces, as workers read them.

ghost use Rattle.std.specs.Prelude.{◌≡◌, IsSome, length};
ghost use Rattle.hh_files.specs.FilePieces.{lists_of};

use hh_pieces::{CutFiles, ReadAt};
use hh_stream::{PieceFault, TakeItems};
use hh_workers::Pieces;
use std::alloc::Global;

/// Files that are cut into pieces. Workers read each of them by itself, in each pass.
#[derive(Drop)]
pub(crate) struct FilePieces<'t, S: ReadAt> {
    pub(crate) files: CutFiles<'t, S>,
    ghost counted: { length (lists_of files.count files.pieces) ≡ files.count },
}

impl<'t, S: ReadAt> FilePieces<'t, S> {
    pub(crate) fn new(files: CutFiles<'t, S>) -> FilePieces<'t, S>
        ensures { result.files ≡ files.entry }
    {
        // It tells how many pieces there are.
        let _count = files.count();
        FilePieces { files }
    }
}

impl<'t, S: ReadAt> Pieces for FilePieces<'t, S> {
    ghost pieces = { λ p. lists_of p.files.count p.files.pieces };

    ghost known = { λ p. IsSome p.files.pieces };

    // Of a piece that can't be read the items are too many for any pass.
    ghost refuses = { λ _ _. Unit };

    fn count(&self) -> usize {
        self.files.count()
    }

    fn feed<T: TakeItems>(
        &self,
        alloc: Global,
        piece: usize,
        taker: &mut T,
    ) -> Result<(), PieceFault> {
        self.files.feed(alloc, piece, taker)
    }
}
