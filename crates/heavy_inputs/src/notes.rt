//! What a run notes of its inputs.

use crate::bad_count::BadCount;
use heavy_host::Unread;
use heavy_progress::{Begin, Endings, ReadProgress};
use std::alloc::Global;
use std::cell::Cell;

/// What a run notes of its inputs while they are read, for what it prints at its end.
#[derive(Drop)]
pub struct InputNotes {
    /// The input that can't be read, and why.
    pub unread: Unread,
    /// How the inputs end that can't be read again.
    pub endings: Cell<Endings>,
    /// How many records were bad and counted as a key.
    pub bad: BadCount,
    /// The first bytes of the inputs that can't be read again.
    pub begin: Begin,
    /// How far this thread is in its inputs.
    pub(crate) progress: ReadProgress,
}

impl InputNotes {
    /// Begins with nothing noted.
    pub fn new(alloc: Global) -> InputNotes {
        InputNotes {
            unread: Unread::new(),
            endings: Cell::new(Endings::new()),
            bad: BadCount::new(),
            begin: Begin::new(alloc),
            progress: ReadProgress::new(),
        }
    }
}
