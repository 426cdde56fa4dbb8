//! Keys with several owners.

ghost use Rattle.std.specs.Prelude.{◌≡◌, ◌<◌, ◌≤◌, ◌∷◌, [], length, IfOk, refl};
ghost use Rattle.std.proofs.Common.{ap};
ghost use Rattle.std.specs.FinMap.{nat_cmp-IsAntisymmetric, slice_cmp-IsAntisymmetric};
ghost use Rattle.std.specs.Cmp.{partial_equiv_from_equiv, partial_order_from_total, eq_by_cmp_equiv, Equal-is};
ghost use Rattle.std.specs.Cmp.Lexicographic.{slice_cmp, nat_list_cmp_total};
ghost use Rattle.std.specs.Ordering.{nat_cmp, as_partial_cmp};
ghost use Rattle.hh_stream.specs.Weights.{max_key_len, key_cmp, same_key};

use hh_stream::{BorrowedKey, Key};
use indexmap::Equivalent;
use std::alloc::{AllocError, Global};
use std::cmp::Ordering;
use std::hash::{Hash, Hasher};
use std::marker::Model;
use std::rc::Rc;

/// A key that several places hold. It is equal, ordered and hashed as the key is, and a contract
/// sees it as the list of its bytes.
#[derive(Debug, Drop)]
pub struct SharedKey {
    key: Rc<Key>,
}

impl Model for SharedKey {
    ghost use Rattle.hh_stream.specs.Weights.{Bytes};

    ghost Value = { Bytes };

    ghost view = { λ shared. shared.key.value };
}

impl SharedKey {
    /// The key with these bytes, which are copied.
    pub fn of_bytes(alloc: Global, bytes: &[u8]) -> Result<SharedKey, AllocError>
        requires { (0 < length bytes.now) × (length bytes.now ≤ max_key_len) }
        ensures { IfOk result (λ shared. shared ≡ bytes.now) }
    {
        let key = Key::of_bytes(alloc, bytes)?;
        Ok(SharedKey {
            key: Rc::new(alloc, key)?,
        })
    }

    /// Shares the key with one more place, without a copy of its bytes.
    pub fn share(&self) -> Result<SharedKey, AllocError>
        ensures { IfOk result (λ shared. shared ≡ self.now) }
    {
        Ok(SharedKey {
            key: self.key.clone()?,
        })
    }

    /// The key.
    pub fn key(&self) -> &Key
        ensures { result.now ≡ self.now }
    {
        &self.key
    }
}

impl PartialEq for SharedKey {
    ghost eq = { same_key };

    ghost laws = { partial_equiv_from_equiv (eq_by_cmp_equiv nat_list_cmp_total) };

    fn eq(&self, other: &SharedKey) -> bool {
        self.key() == other.key()
    }
}

impl Eq for SharedKey {
    ghost laws = { eq_by_cmp_equiv nat_list_cmp_total };
}

impl PartialOrd for SharedKey {
    ghost partial_cmp = { as_partial_cmp key_cmp };

    ghost laws = { partial_order_from_total nat_list_cmp_total };

    fn partial_cmp(&self, other: &SharedKey) -> Option<Ordering> {
        Some(self.cmp(other))
    }
}

impl Ord for SharedKey {
    ghost cmp = { key_cmp };

    ghost total = { nat_list_cmp_total };

    ghost matches_partial_cmp = { λ x y. refl };

    ghost matches_eq = { λ x y. refl };

    fn cmp(&self, other: &SharedKey) -> Ordering {
        self.key().cmp(other.key())
    }
}

impl Hash for SharedKey {
    ghost hash_input = { λ shared. shared ∷ [] };

    ghost respects_eq = { λ x y e. ap (λ key. key ∷ [])
        (slice_cmp-IsAntisymmetric nat_cmp-IsAntisymmetric x y
        ((Equal-is (slice_cmp nat_cmp x y)).0 e)) };

    fn hash<H: Hasher>(&self, state: &mut H) {
        self.key().hash(state);
    }
}

impl Equivalent<SharedKey> for BorrowedKey<'_> {
    ghost equivalent = { λ borrowed. same_key borrowed.0.now };

    ghost respects_hash = { λ borrowed key e. ap (λ key. key ∷ [])
        (slice_cmp-IsAntisymmetric nat_cmp-IsAntisymmetric borrowed.0.now key
        ((Equal-is _).0 e)) };

    ghost respects_eq = { λ borrowed.
        (eq_by_cmp_equiv nat_list_cmp_total).congr borrowed.0.now };

    fn equivalent(&self, key: &SharedKey) -> bool {
        self.0 == key.key().bytes()
    }
}
