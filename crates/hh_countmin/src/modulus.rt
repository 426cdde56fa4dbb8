//! Arithmetic modulo 2^61 - 1, and modulo a width.

ghost use Rattle.std.specs.Prelude.{◌≡◌, ◌+◌, ◌*◌, ◌<◌, ◌%◌, ◌^◌};
ghost use Rattle.hh_countmin.specs.Family.{modulus};

/// Fingerprints and cells are computed modulo 2^61 - 1.
pub const MODULUS: u64 = 2_305_843_009_213_693_951;

/// `a * b + c` modulo [`MODULUS`].
#[inline]
pub fn multiply_add(a: u64, b: u64, c: u64) -> u64
    requires a { a < modulus }
    requires b { b < modulus }
    requires c { c < modulus }
    ensures value { result ≡ (a * b + c) % modulus }
    ensures below { result < modulus }
{
    reduce(u128::from(a) * u128::from(b) + u128::from(c))
}

/// A number of up to 122 bits modulo [`MODULUS`], without a division: 2^61 is 1 there, so the bits
/// from the 61st on are added to those below, and at most one modulus is left over.
#[inline]
pub fn reduce(wide: u128) -> u64
    requires { wide < modulus * 2 ^ 61 }
    ensures value { result ≡ wide % modulus }
    ensures below { result < modulus }
{
    let low = (wide & u128::from(MODULUS)) as u64;
    let high = (wide >> 61) as u64;
    let sum = low + high;
    if sum < MODULUS { sum } else { sum - MODULUS }
}

/// `number % width`, without a division where the width is a power of two.
#[inline]
pub fn remainder(number: u64, width: u64) -> u64
    requires { 0 < width }
    ensures { result ≡ number % width }
{
    if width.is_power_of_two() {
        number & (width - 1)
    } else {
        number % width
    }
}
