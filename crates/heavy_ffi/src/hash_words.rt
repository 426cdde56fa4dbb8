//! The words by which keys are hashed, as C has them.

use hh_library::hash_of;
use hh_stream::KeyHash;

/// Words by which keys are hashed, drawn at random where others choose the keys, or both 0.
#[derive(Clone, Copy)]
#[repr(C)]
pub struct HashWords {
    pub words: [u64; 2],
}

impl HashWords {
    /// Gives the words that all runs have.
    pub(crate) fn fixed() -> HashWords {
        HashWords { words: [0, 0] }
    }

    /// Gives the hash of keys by these words.
    pub(crate) fn key_hash(&self) -> KeyHash {
        hash_of(self.words[0], self.words[1])
    }
}
