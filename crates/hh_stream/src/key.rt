//! Keys: 1 to 4,096 bytes.

ghost use Rattle.std.specs.Prelude.{◌≡◌, ◌<◌, ◌≤◌, ◌↔◌, ◌∷◌, [], length, IsOk, IfOk, IfErr, IsErrOf, refl};
ghost use Rattle.std.proofs.Common.{ap};
ghost use Rattle.std.specs.FinMap.{nat_cmp-IsAntisymmetric, slice_cmp-IsAntisymmetric};
ghost use Rattle.std.specs.Cmp.{partial_equiv_from_equiv, partial_order_from_total, eq_by_cmp_equiv, Equal-is};
ghost use Rattle.std.specs.Cmp.Lexicographic.{slice_cmp, nat_list_cmp_total};
ghost use Rattle.std.specs.Ordering.{nat_cmp, as_partial_cmp};
ghost use Rattle.hh_stream.specs.Faults.{IsKeyFault};
ghost use Rattle.hh_stream.specs.Storage.{IsStorage, stored_bytes};
ghost use Rattle.hh_stream.specs.Weights.{max_key_len, inline_len, IsKey, key_cmp, same_key};

use crate::fault::StreamFault;
use std::alloc::{AllocError, Global};
use std::cmp::Ordering;
use std::hash::{Hash, Hasher};
use std::marker::Model;

/// The most bytes that a key has.
pub const MAX_KEY_LEN: usize = 4096;

/// The most bytes of a key that takes no memory of its own.
pub const INLINE_LEN: usize = 24;

/// A key: 1 to [`MAX_KEY_LEN`] bytes. Keys are equal, ordered and hashed by their bytes, and a
/// proper prefix stands before the longer key. A hash takes the bytes alone and no length, so two
/// keys that are hashed one after the other are hashed as the bytes of both. A contract sees a key
/// as the list of its bytes.
///
/// A key of up to [`INLINE_LEN`] bytes lies in the value itself.
#[derive(Debug, Drop)]
pub struct Key {
    storage: Storage,
}

/// Where the bytes of a key lie.
#[derive(Debug, Drop)]
enum Storage {
    /// In the value itself: as many as the number says, from the front.
    Inline(u8, Short),
    /// In memory of their own.
    Heap(Vec<u8>),
}

/// Room for a few bytes, at a multiple of 8 as a `Vec` is, so that a key is copied in whole words.
#[derive(Clone, Copy, Debug, Drop)]
struct Short {
    bytes: [u8; INLINE_LEN],
    aligned: [u64; 0],
}

impl Model for Key {
    ghost use Rattle.hh_stream.specs.Faults.{IsKeyFault};
    ghost use Rattle.hh_stream.specs.Storage.{IsStorage, stored_bytes};
    ghost use Rattle.hh_stream.specs.Weights.{Bytes, IsKey};

    ghost Value = { Bytes };

    ghost view = { λ key. stored_bytes key.storage };

    ghost invariant = { λ key. IsStorage key.storage × IsKey (stored_bytes key.storage) };
}

impl Key {
    /// The key with these bytes, which are copied. The error is the first of `Empty`, `TooLong` and
    /// `Memory` that holds.
    pub fn new(alloc: Global, bytes: &[u8]) -> Result<Key, StreamFault>
        ensures key { IfOk result (λ key. key ≡ bytes.now) }
        ensures empty { IsErrOf result StreamFault.Empty ↔ (length bytes.now ≡ 0) }
        ensures too_long { IsErrOf result StreamFault.TooLong ↔ (max_key_len < length bytes.now) }
        ensures faults { IfErr result IsKeyFault }

        // a short key takes no memory
        ensures short { 0 < length bytes.now → length bytes.now ≤ inline_len → IsOk result }
    {
        if bytes.is_empty() {
            return Err(StreamFault::Empty);
        }
        if bytes.len() > MAX_KEY_LEN {
            return Err(StreamFault::TooLong);
        }
        Ok(Key::of_bytes(alloc, bytes)?)
    }

    /// [`new`](Key::new) of 1 to [`MAX_KEY_LEN`] bytes, where only memory can be refused.
    pub fn of_bytes(alloc: Global, bytes: &[u8]) -> Result<Key, AllocError>
        requires { (0 < length bytes.now) × (length bytes.now ≤ max_key_len) }
        ensures key { IfOk result (λ key. key ≡ bytes.now) }

        // a short key takes no memory
        ensures short { length bytes.now ≤ inline_len → IsOk result }
    {
        let storage = if bytes.len() <= INLINE_LEN {
            inline(bytes)
        } else {
            Storage::Heap(Vec::from_slice(alloc, bytes)?)
        };
        Ok(Key { storage })
    }

    /// The bytes of the key.
    pub fn bytes(&self) -> &[u8]
        ensures bytes { result.now ≡ self.now }
        ensures key { IsKey self.now }
    {
        match &self.storage {
            Storage::Inline(len, short) => &short.bytes[..usize::from(*len)],
            Storage::Heap(bytes) => bytes.as_slice(),
        }
    }

    /// An equal key.
    pub fn copy(&self) -> Result<Key, AllocError>
        ensures equal { IfOk result (λ key. key ≡ self.now) }

        // a short key takes no memory
        ensures short { length self.now ≤ inline_len → IsOk result }
    {
        let storage = match &self.storage {
            Storage::Inline(len, short) => Storage::Inline(*len, *short),
            Storage::Heap(bytes) => Storage::Heap(Vec::from_slice(*bytes.allocator(), bytes)?),
        };
        Ok(Key { storage })
    }
}

/// A few bytes, in the value itself.
fn inline(bytes: &[u8]) -> Storage
    requires { length bytes.now ≤ inline_len }
    ensures bytes { stored_bytes result ≡ bytes.now }
    ensures storage { IsStorage result }
{
    let mut room = [0; INLINE_LEN];
    room[..bytes.len()].copy_from_slice(bytes);
    let short = Short {
        bytes: room,
        aligned: [],
    };
    Storage::Inline(bytes.len() as u8, short)
}

impl PartialEq for Key {
    ghost eq = { same_key };

    ghost laws = { partial_equiv_from_equiv (eq_by_cmp_equiv nat_list_cmp_total) };

    fn eq(&self, other: &Key) -> bool {
        self.bytes() == other.bytes()
    }
}

impl Eq for Key {
    ghost laws = { eq_by_cmp_equiv nat_list_cmp_total };
}

impl PartialOrd for Key {
    ghost partial_cmp = { as_partial_cmp key_cmp };

    ghost laws = { partial_order_from_total nat_list_cmp_total };

    fn partial_cmp(&self, other: &Key) -> Option<Ordering> {
        Some(self.cmp(other))
    }
}

impl Ord for Key {
    ghost cmp = { key_cmp };

    ghost total = { nat_list_cmp_total };

    ghost matches_partial_cmp = { λ x y. refl };

    ghost matches_eq = { λ x y. refl };

    fn cmp(&self, other: &Key) -> Ordering {
        self.bytes().cmp(other.bytes())
    }
}

impl Hash for Key {
    ghost hash_input = { λ key. key ∷ [] };

    ghost respects_eq = { λ x y e. ap (λ key. key ∷ [])
        (slice_cmp-IsAntisymmetric nat_cmp-IsAntisymmetric x y
        ((Equal-is (slice_cmp nat_cmp x y)).0 e)) };

    fn hash<H: Hasher>(&self, state: &mut H) {
        state.write(self.bytes());
    }
}
