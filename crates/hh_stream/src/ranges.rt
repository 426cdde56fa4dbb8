//! Ranges of numbers.

ghost use Rattle.std.specs.Prelude.{◌≡◌};
ghost use Rattle.hh_stream.specs.Ranges.{in_range};

/// Whether the number is from 1 to the most.
pub fn in_range(number: u64, most: u64) -> bool
    ensures { result ≡ in_range number most }
{
    1 <= number && number <= most
}
