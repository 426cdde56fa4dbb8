//! The last bytes of a text as they come.

use crate::last_record::{Ending, MOST_LAST, last_of};
use std::alloc::Global;

/// The last bytes of a text that is read once.
#[derive(Drop)]
pub struct Tail {
    bytes: Vec<u8>,
    /// How many bytes came.
    seen: u64,
}

impl Tail {
    /// Begins with none.
    pub fn new(alloc: Global) -> Tail {
        Tail {
            bytes: Vec::new(alloc),
            seen: 0,
        }
    }

    /// Drops all but the last of them.
    fn shorten(&mut self) {
        let held = self.bytes.len();
        let from = held.saturating_sub(MOST_LAST);
        self.bytes.as_mut_slice().copy_within(from..held, 0);
        self.bytes.truncate(held - from);
    }

    /// Takes the next `bytes`. Where there is no memory for them, the tail begins after them.
    pub fn add(&mut self, bytes: &[u8]) {
        self.seen = self.seen.saturating_add(bytes.len() as u64);
        if self.bytes.len() >= 2 * MOST_LAST {
            self.shorten();
        }
        let last = last_of(bytes, MOST_LAST);
        if self.bytes.extend_from_slice(last).is_err() {
            self.bytes.clear();
        }
    }

    /// Says how the text ends, with `delimiter` between its fields.
    pub fn ending(&self, delimiter: u8) -> Ending {
        let bytes = last_of(&self.bytes, MOST_LAST);
        Ending::of(bytes, bytes.len() as u64 == self.seen, delimiter)
    }
}
