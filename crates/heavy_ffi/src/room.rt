//! What is given in a room that the caller lends.

ghost use Rattle.std.specs.Prelude.{◌≡◌, ◌≢◌, ◌<◌, ◌≤◌, ◌⊎◌, length, map, take};
ghost use Rattle.std.specs.Prelude.{Err, IfOk, IsOkAnd};
ghost use Rattle.heavy_ffi.specs.Faults.{no_value};
ghost use Rattle.heavy_ffi.specs.Outcomes.{IsGiven, IsOutcome, both_of};

use crate::fault::{Fault, tell};
use hh_faults::ToolError;
use std::alloc::{AllocError, Global};

/// The status of a call that is done.
pub(crate) const DONE: u32 = 0;

/// The status of a call whose words are wrong.
pub(crate) const USAGE: u32 = 2;

/// The status of a call whose answer has no place in the room.
pub(crate) const TOO_SMALL: u32 = 5;

/// The least and the most that a key's weight can be.
#[derive(Clone, Copy)]
#[repr(C)]
pub struct Bounds {
    pub low: u64,
    pub high: u64,
}

/// Copies what a call gives into the room, where it has place, and tells its number.
pub(crate) fn give<T: Copy>(given: &[T], out: &mut [T], needed: &mut usize) -> u32
    ensures needed { needed.new ≡ length given.now }
    ensures given { result ≡ 0 → take needed.new out.new ≡ given.now }
    ensures within { result ≡ 0 → needed.new ≤ length out.old }
    ensures small { result ≡ 5 → length out.old < length given.now }
    ensures statuses { result ≢ 0 → result ≡ 5 }
    ensures same_length { length out.new ≡ length out.old }
    ensures unchanged { result ≢ 0 → out.new ≡ out.old }
{
    *needed = given.len();
    if given.len() > out.len() {
        return TOO_SMALL;
    }
    out[..given.len()].copy_from_slice(given);
    DONE
}

/// The answer of a call in the room, or its refusal.
pub(crate) fn answer<T: Copy>(
    given: Result<Vec<T>, ToolError>,
    out: &mut [T],
    needed: &mut usize,
    fault: &mut Fault,
) -> u32
    ensures outcome { IsOutcome (IsGiven given) (λ refusal. given ≡ Err refusal)
        result out.old out.new needed.new fault.new }
    ensures size { (result ≡ 0) ⊎ (result ≡ 5) → IsOkAnd given (λ given.
        needed.new ≡ length given.items) }
    ensures nothing { result ≢ 0 → result ≢ 5 → needed.new ≡ 0 }
    ensures same_length { length out.new ≡ length out.old }
{
    *fault = Fault::none();
    match given {
        Ok(given) => give(&given, out, needed),
        Err(refusal) => {
            *needed = 0;
            tell(&refusal, fault)
        }
    }
}

/// The answer of a call whose handle has no value.
pub(crate) fn answer_nothing(needed: &mut usize, fault: &mut Fault) -> u32
    ensures status { result ≡ 2 }
    ensures fault { fault.new ≡ no_value }
    ensures nothing { needed.new ≡ 0 }
{
    *needed = 0;
    *fault = Fault::no_value();
    USAGE
}

/// The pairs as C has them.
pub(crate) fn all_bounds(alloc: Global, pairs: &[(u64, u64)]) -> Result<Vec<Bounds>, AllocError>
    ensures { IfOk result (λ all. map both_of all.items ≡ pairs.now) }
{
    let mut all = Vec::new(alloc);
    for pair in pairs {
        all.push(Bounds {
            low: pair.0,
            high: pair.1,
        })?;
    }
    Ok(all)
}
