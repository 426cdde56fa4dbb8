//! Sealing a file.

ghost use Rattle.std.specs.Prelude.{◌≡◌, ◌<◌, ◌⊎◌, IfErr, IfOk};
ghost use Rattle.hh_faults.specs.declared.saved.SavedFault.TheVariants as faults;
ghost use Rattle.hh_seals.specs.Sealing.{IsSealed, max_decimals};

use hh_faults::SavedFault;
use sha2::{Digest, Sha256};
use std::alloc::Global;

/// The bytes that a sealed file begins with.
pub(crate) const MAGIC: [u8; 4] = *b"HVY1";

/// The most decimals.
pub const MAX_DECIMALS: u8 = 9;

/// Seals `spelling`, whose weights have `decimals` digits after the point: the one sealed text of
/// both. More than [`MAX_DECIMALS`] are [`SavedFault::BadDecimals`].
pub fn seal(alloc: Global, decimals: u8, spelling: &[u8]) -> Result<Vec<u8>, SavedFault>
    ensures sealed { IfOk result (λ bytes. IsSealed bytes.items decimals spelling.now) }
    ensures refused { IfErr result (λ fault. (fault ≡ faults.Memory)
        ⊎ ((fault ≡ faults.BadDecimals) × (max_decimals < decimals))) }
{
    if decimals > MAX_DECIMALS {
        return Err(SavedFault::BadDecimals);
    }
    let mut bytes = Vec::new(alloc);
    bytes.extend_from_slice(&MAGIC)?;
    bytes.push(decimals)?;
    bytes.extend_from_slice(spelling)?;
    let digest = Sha256::digest(bytes.as_slice());
    bytes.extend_from_slice(&digest)?;
    Ok(bytes)
}
