//! Numbers with digits after a point.

ghost use Rattle.std.specs.Prelude.{◌≡◌, ◌*◌, ◌/◌, ◌<◌, ◌^◌, false, length, min, true, IfOk, IfSome, MatchOption, Some, option_map};
ghost use Rattle.hh_stream.specs.Digits.{value_of};
ghost use Rattle.hh_records.specs.Decimals.{is_whole, point_from, pointed, units_of};

use crate::records::number_in;
use itoa::Buffer;
use std::alloc::{AllocError, Global};

/// Moves `number` by `decimals` places to the left, to at most the largest `u64`.
pub(crate) fn scaled(number: u64, decimals: u8) -> u64
    ensures { result ≡ min (number * 10 ^ decimals) u64.MAX }
{
    let mut units = number;
    for _place in 0..decimals {
        units = units.saturating_mul(10);
    }
    units
}

/// Finds the place of the first point in `field`.
fn point_in(field: &[u8]) -> Option<usize>
    ensures place { result ≡ point_from 0 field.now }
    ensures within { IfSome result (λ place. place < length field.now) }
{
    for place in 0..field.len() {
        if field[place] == b'.' {
            return Some(place);
        }
    }
    None
}

/// Reads the number that the `digits` before a point write, at most the largest `u64`. None write
/// 0.
fn whole_in(digits: &[u8]) -> Option<u64>
    ensures { MatchOption result
        (is_whole digits.now ≡ false)
        (λ number. (is_whole digits.now ≡ true)
        × (number ≡ min (value_of digits.now) u64.MAX)) }
{
    if digits.is_empty() {
        return Some(0);
    }
    number_in(digits, 20)
}

/// Reads the number that `field` writes, which may have digits after a point, in units of the last
/// of `decimals` digits, at most the largest `u64`.
fn pointed_in(field: &[u8], decimals: u8) -> Option<u64>
    ensures { result ≡ option_map (λ units. min units u64.MAX)
        (units_of decimals (Some field.now)) }
{
    if let Some(whole) = number_in(field, 20) {
        return Some(scaled(whole, decimals));
    }
    let place = point_in(field)?;
    let whole = whole_in(&field[..place])?;
    let fraction = &field[place + 1..];
    let units = number_in(fraction, decimals as usize)?;
    let missing = decimals - fraction.len() as u8;
    Some(scaled(whole, decimals).saturating_add(scaled(units, missing)))
}

/// Reads the number that `field` writes as [`pointed_in`] does. Where no digit may stand after a
/// point there is none.
pub(crate) fn units_in(field: &[u8], decimals: u8) -> Option<u64>
    ensures { result ≡ option_map (λ units. min units u64.MAX)
        (units_of decimals (Some field.now)) }
{
    if decimals == 0 {
        return number_in(field, 20);
    }
    pointed_in(field, decimals)
}

/// Gives `number` without its last digits, as many as `places` says.
fn without(number: u128, places: u8) -> u128
    ensures { result ≡ number / 10 ^ places }
{
    let mut left = number;
    for _place in 0..places {
        left /= 10;
    }
    left
}

/// Writes `number`, which counts in units of the last of `decimals` digits after a point. With
/// none there is no point.
pub fn pointed(alloc: Global, number: u128, decimals: u8) -> Result<Vec<u8>, AllocError>
    ensures { IfOk result (λ text. text.items ≡ pointed decimals number) }
{
    let mut digits = Buffer::new();
    let whole = digits.format(without(number, decimals)).as_bytes();
    let mut text = Vec::from_slice(alloc, whole)?;
    if decimals == 0 {
        return Ok(text);
    }
    text.push(b'.')?;
    for i in 0..decimals {
        let digit = without(number, decimals - 1 - i) % 10;
        text.push(b'0' + digit as u8)?;
    }
    Ok(text)
}
