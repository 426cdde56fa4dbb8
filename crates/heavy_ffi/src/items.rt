//! Keys that lie in one slice, one after the other, and items of such keys.

ghost use Rattle.std.specs.Prelude.{◌≡◌, length, map, vec_items, IfOk};
ghost use Rattle.hh_library.specs.Add.{entries};
ghost use Rattle.heavy_ffi.specs.Items.{bad_end, items_of, keys_of, shape_fault};

use crate::fault::Fault;
use std::alloc::{AllocError, Global};

/// The items of keys that end there, each from the end of the one before it to its own, with these
/// weights. Those after the last weight weigh 1.
pub(crate) fn items_of<'a>(
    alloc: Global,
    keys: &'a [u8],
    ends: &[u64],
    weights: &[u64],
) -> Result<Vec<(&'a [u8], u64)>, AllocError>
    ensures { IfOk result (λ items. entries items.items ≡ items_of keys.now ends.now weights.now) }
{
    let mut items: Vec<(&[u8], u64)> = Vec::with_capacity(alloc, ends.len())?;
    let mut from = 0;
    let mut rest = keys;
    for i in 0..ends.len() {
        let length = (ends[i].saturating_sub(from) as usize).min(rest.len());
        let (key, after) = rest.split_at(length);
        let weight = if i < weights.len() { weights[i] } else { 1 };
        items.push((key, weight))?;
        from = ends[i];
        rest = after;
    }
    Ok(items)
}

/// The number of the first end that is before the end before it, or after `len` bytes.
fn bad_end(len: usize, ends: &[u64]) -> Option<u64>
    ensures { result ≡ bad_end 1 0 len ends.now }
{
    let mut from = 0;
    for i in 0..ends.len() {
        if ends[i] < from || ends[i] > len as u64 {
            return Some(i as u64 + 1);
        }
        from = ends[i];
    }
    None
}

/// The kind of the fault of an end.
const BAD_END: u32 = 20;

/// The kind of the fault of a number of weights.
const BAD_WEIGHT_COUNT: u32 = 21;

/// The fault of ends or weights that keys of `len` bytes in all can't have.
pub(crate) fn shape_fault(len: usize, ends: &[u64], weights: &[u64]) -> Option<Fault>
    ensures { result ≡ shape_fault len ends.now weights.now }
{
    if let Some(number) = bad_end(len, ends) {
        return Some(Fault {
            kind: BAD_END,
            cause: 0,
            number,
        });
    }
    if weights.is_empty() || weights.len() == ends.len() {
        return None;
    }
    Some(Fault {
        kind: BAD_WEIGHT_COUNT,
        cause: 0,
        number: 0,
    })
}

/// Gives the keys that end there, each in memory of its own.
pub(crate) fn keys_of(alloc: Global, keys: &[u8], ends: &[u64]) -> Result<Vec<Vec<u8>>, AllocError>
    ensures keys { IfOk result (λ own. map vec_items own.items ≡ keys_of keys.now ends.now) }
    ensures count { IfOk result (λ own. length own.items ≡ length ends.now) }
{
    let items = items_of(alloc, keys, ends, &[])?;
    let mut own = Vec::new(alloc);
    for (key, _) in &items {
        own.push(key.to_vec(alloc)?)?;
    }
    Ok(own)
}
