//! Hashes of keys, under secret words.

ghost use Rattle.std.specs.Prelude.{◌≡◌, ◌+◌, ◌≤◌, length};
ghost use Rattle.std.specs.Hash.FoldHasher.{folded_multiply};
ghost use Rattle.hh_stream.specs.KeyHash as hashing;

use std::fmt::{self, Debug, Formatter};
use std::hash::{BuildHasher, Hasher};
use std::io;
use std::random::RandomSource;

/// How a map hashes keys: by two words of 64 bits, which may be secret.
///
/// Where they are [`random`](KeyHash::random), those who choose the keys don't know which of them
/// meet in a map. Where they are [`fixed`](KeyHash::fixed), everyone knows. No call answers by
/// them: they decide how fast a key is found, and nothing else.
///
/// The steps are those of foldhash (Orson Peters 2024, its fast variant), after wyhash (Wang Yi
/// 2019): each takes 16 bytes, joins one half to the state and the other to a secret word by xor,
/// multiplies both to 128 bits, and joins the halves of the product by xor. The state begins as the
/// other word, turned by the number of bytes. The last 16 bytes are the last step, so no step goes
/// by public numbers alone. There is no proof that keys don't collide, as for SipHash there is
/// none: that no one has found such keys without the words is all that is known.
#[derive(Clone, Copy)]
pub struct KeyHash {
    start: u64,
    factor: u64,
}

impl KeyHash {
    /// The words that all runs have, for keys that nobody chooses to collide.
    pub fn fixed() -> KeyHash
        ensures { result ≡ hashing.fixed_words }
    {
        KeyHash {
            start: 0x243f_6a88_85a3_08d3,
            factor: 0x1319_8a2e_0370_7344,
        }
    }

    /// Words of this run, from the system's random numbers.
    pub fn random(rt: &impl RandomSource) -> io::Result<KeyHash> {
        let mut start = [0; 8];
        rt.fill_bytes(&mut start)?;
        let mut factor = [0; 8];
        rt.fill_bytes(&mut factor)?;
        Ok(KeyHash {
            start: u64::from_le_bytes(start),
            factor: u64::from_le_bytes(factor),
        })
    }
}

impl Debug for KeyHash {
    fn fmt<W: fmt::Write>(&self, f: &mut Formatter<W>) -> fmt::Result {
        f.debug_struct("KeyHash").finish_non_exhaustive()
    }
}

impl BuildHasher for KeyHash {
    type Hasher = KeyHasher;

    ghost build_hasher = { hashing.first_hasher };

    fn build_hasher(&self) -> KeyHasher {
        KeyHasher {
            state: self.start,
            factor: self.factor,
        }
    }
}

/// What hashes one key.
#[derive(Clone, Copy)]
pub struct KeyHasher {
    state: u64,
    factor: u64,
}

impl Hasher for KeyHasher {
    ghost write = { hashing.write };

    ghost finish = { hashing.finish };

    #[inline(always)]
    fn finish(&self) -> u64 {
        self.state
    }

    #[inline(always)]
    fn write(&mut self, bytes: &[u8]) {
        let mut state = self.state.rotate_left((bytes.len() % 64) as u32);
        for block in 0..bytes.len().saturating_sub(1) / 16 {
            let at = 16 * block;
            state = step(self.factor, state, word(bytes, at), word(bytes, at + 8));
        }
        let (first, last) = last_words(bytes);
        self.state = step(self.factor, state, first, last);
    }
}

// The state after two words.
#[inline(always)]
fn step(factor: u64, state: u64, first: u64, last: u64) -> u64
    ensures { result ≡ hashing.step factor state first last }
{
    folded_multiply(state ^ first, factor ^ last)
}

// The halves of the 128 bits of a product, joined by xor.
#[inline(always)]
fn folded_multiply(a: u64, b: u64) -> u64
    ensures { result ≡ folded_multiply a b }
{
    let product = u128::from(a) * u128::from(b);
    (product & 0xffff_ffff_ffff_ffff) as u64 ^ (product >> 64) as u64
}

// The last two words, which may have bytes in common: they hold all of up to 16 bytes.
#[inline(always)]
fn last_words(bytes: &[u8]) -> (u64, u64)
    ensures { result ≡ hashing.last_words bytes.now }
{
    let len = bytes.len();
    if len >= 8 {
        (word(bytes, len.saturating_sub(16)), word(bytes, len - 8))
    } else if len >= 4 {
        (half_word(bytes, 0), half_word(bytes, len - 4))
    } else if len >= 1 {
        let ends = u64::from(bytes[len / 2]) + u64::from(bytes[len - 1]) * 256;
        (u64::from(bytes[0]), ends)
    } else {
        (0, 0)
    }
}

// Eight bytes as a number, the lowest first.
#[inline(always)]
fn word(bytes: &[u8], at: usize) -> u64
    requires { at + 8 ≤ length bytes.now }
    ensures { result ≡ hashing.word bytes.now at }
{
    let b = &bytes[at..at + 8];
    u64::from_le_bytes([b[0], b[1], b[2], b[3], b[4], b[5], b[6], b[7]])
}

// Four bytes as a number, the lowest first.
#[inline(always)]
fn half_word(bytes: &[u8], at: usize) -> u64
    requires { at + 4 ≤ length bytes.now }
    ensures { result ≡ hashing.half_word bytes.now at }
{
    let b = &bytes[at..at + 4];
    u64::from(u32::from_le_bytes([b[0], b[1], b[2], b[3]]))
}
