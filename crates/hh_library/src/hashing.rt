//! Hashes of keys under words that a caller drew.

ghost use Rattle.std.specs.Prelude.{◌≡◌};
ghost use Rattle.hh_stream.specs.KeyHash.{fixed_words};

use hh_stream::KeyHash;
use std::cell::Cell;
use std::io;
use std::random::RandomSource;

/// Random words that were drawn elsewhere, handed on in turn.
#[derive(Drop)]
struct Drawn {
    next: Cell<u64>,
    last: Cell<u64>,
}

impl RandomSource for Drawn {
    fn fill_bytes(&self, buf: &mut [u8]) -> io::Result<()> {
        let word = self.next.get();
        self.next.set(self.last.get());
        self.last.set(word);
        let bytes = word.to_le_bytes();
        for i in 0..buf.len() {
            buf[i] = bytes[i % 8];
        }
        Ok(())
    }
}

/// How keys are hashed under two words, which a caller drew at random where others choose the keys.
/// Two zeros stand for the words that all runs have. No call answers by them.
pub fn hash_of(start: u64, factor: u64) -> KeyHash
    ensures { start ≡ 0 → factor ≡ 0 → result ≡ fixed_words }
{
    if start == 0 && factor == 0 {
        return KeyHash::fixed();
    }
    let drawn = Drawn {
        next: Cell::new(start),
        last: Cell::new(factor),
    };
    match KeyHash::random(&drawn) {
        Ok(hash) => hash,
        Err(_) => KeyHash::fixed(),
    }
}
