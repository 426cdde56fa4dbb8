//! Opening a sealed file.

ghost use Rattle.std.specs.Prelude.{ℕ, IfOk, List, Ok};
ghost use Rattle.hh_saved.specs.Reading.{Reads};
ghost use Rattle.hh_seals.specs.Opening.{opened_of, unsealed};
ghost use Rattle.hh_seals.specs.Sealing.{IsSealed};

use crate::sealing::{MAGIC, MAX_DECIMALS};
use hh_faults::SavedFault;
use sha2::{Digest, Sha256};

/// How many bytes a digest has.
const DIGEST_LEN: usize = 32;

/// What a sealed file holds.
#[derive(Clone, Copy, Debug, PartialEq, Eq)]
pub struct Contents<'a> {
    /// How many digits of each weight stand after its point.
    pub decimals: u8,
    /// The spelling of a value.
    pub spelling: &'a [u8],
}

/// Opens the sealed file `bytes`. The faults in the order of their tests: fewer bytes than a sealed
/// file has, another magic, a digest of other bytes ([`SavedFault::Damaged`]), and more than
/// [`MAX_DECIMALS`] decimals. What is wrong with the spelling, the reader of saved files reports. No
/// memory is taken.
pub fn open(bytes: &[u8]) -> Result<Contents<'_>, SavedFault>
    // What is opened is sealed, and what is sealed is opened.
    ensures found { IfOk result (λ c. IsSealed bytes.now c.decimals c.spelling.now) }
    ensures only { (decimals : ℕ) (spelling : List ℕ) → IsSealed bytes.now decimals spelling
        → Reads {Y = ℕ × List ℕ} (λ c. (c.decimals, c.spelling.now)) result
        (Ok (decimals, spelling)) }

    // Which fault it is.
    ensures exact { Reads (λ c. (c.decimals, c.spelling.now)) result (opened_of bytes.now) }
{
    contents_of(bytes)
}

#[tactic(auto, unfolding(crate::specs::Opening::opened_of))]
fn contents_of(bytes: &[u8]) -> Result<Contents<'_>, SavedFault>
    ensures { Reads (λ c. (c.decimals, c.spelling.now)) result (opened_of bytes.now) }
{
    if bytes.len() < MAGIC.len() {
        return Err(SavedFault::Truncated);
    }
    if !bytes.starts_with(&MAGIC) {
        return Err(SavedFault::BadMagic);
    }
    if bytes.len() < MAGIC.len() + 1 + DIGEST_LEN {
        return Err(SavedFault::Truncated);
    }
    let (content, digest) = bytes.split_at(bytes.len() - DIGEST_LEN);
    if Sha256::digest(content).as_slice() != digest {
        return Err(SavedFault::Damaged);
    }
    let decimals = bytes[MAGIC.len()];
    if decimals > MAX_DECIMALS {
        return Err(SavedFault::BadDecimals);
    }
    Ok(Contents {
        decimals,
        spelling: &content[MAGIC.len() + 1..],
    })
}

/// The spelling that the bytes of a saved file seal, or all `bytes` where they don't begin as a
/// sealed file. The error is the fault of the seal. No memory is taken.
pub fn unsealed(bytes: &[u8]) -> Result<&[u8], SavedFault>
    ensures { Reads (λ spelling. spelling.now) result (unsealed bytes.now) }
{
    if !bytes.starts_with(&MAGIC) {
        return Ok(bytes);
    }
    Ok(contents_of(bytes)?.spelling)
}
