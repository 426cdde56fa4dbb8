//! Keys that are looked up by their bytes.

ghost use Rattle.std.specs.Prelude.{[], ◌∷◌};
ghost use Rattle.std.proofs.Common.{ap};
ghost use Rattle.std.specs.FinMap.{nat_cmp-IsAntisymmetric, slice_cmp-IsAntisymmetric};
ghost use Rattle.std.specs.Cmp.{eq_by_cmp_equiv, Equal-is};
ghost use Rattle.std.specs.Cmp.Lexicographic.{bytes_decides, nat_list_cmp_total};
ghost use Rattle.hh_stream.specs.Weights.{same_key};

use crate::key::Key;
use indexmap::Equivalent;
use std::hash::{Hash, Hasher};

/// The bytes of a key, by which it is looked up in a map.
#[derive(Clone, Copy, PartialEq, Eq)]
pub struct BorrowedKey<'a>(pub &'a [u8]);

impl Hash for BorrowedKey<'_> {
    ghost hash_input = { λ borrowed. borrowed.0.now ∷ [] };

    ghost respects_eq = { λ x y e. ap (λ key. key ∷ []) ((bytes_decides x.0.now y.0.now).0 e) };

    fn hash<H: Hasher>(&self, state: &mut H) {
        state.write(self.0);
    }
}

impl Equivalent<Key> for BorrowedKey<'_> {
    ghost equivalent = { λ borrowed. same_key borrowed.0.now };

    ghost respects_hash = { λ borrowed key e. ap (λ key. key ∷ [])
        (slice_cmp-IsAntisymmetric nat_cmp-IsAntisymmetric borrowed.0.now key
        ((Equal-is _).0 e)) };

    ghost respects_eq = { λ borrowed.
        (eq_by_cmp_equiv nat_list_cmp_total).congr borrowed.0.now };

    fn equivalent(&self, key: &Key) -> bool {
        self.0 == key.bytes()
    }
}
