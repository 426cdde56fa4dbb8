//! The versions of the format, and the numbers that stand for themselves in a saved file.

ghost use Rattle.std.specs.Prelude.{◌≡◌};
ghost use Rattle.hh_saved.specs.Spelling.{magic_of, max_len};

use hh_stream::MAX_KEY_LEN;

/// A version of the format: they differ in the magic and in the length of a key. [`write`] gives
/// the last one, and [`read`] takes each.
///
/// [`write`]: crate::write
/// [`read`]: crate::read
#[derive(Clone, Copy, Debug, PartialEq, Eq)]
pub enum Version {
    /// `HHS1`: the length of a key has one byte, and a key at most 255.
    One,
    /// `HHS2`: the length of a key has two bytes, and a key at most [`MAX_KEY_LEN`].
    Two,
}

impl Version {
    /// The four bytes that a file begins with.
    pub(crate) fn magic(self) -> u32
        ensures { result ≡ magic_of self }
    {
        match self {
            Version::One => 0x4848_5331,
            Version::Two => 0x4848_5332,
        }
    }

    /// The most bytes of a key.
    pub(crate) fn max_len(self) -> usize
        ensures { result ≡ max_len self }
    {
        match self {
            Version::One => 255,
            Version::Two => MAX_KEY_LEN,
        }
    }
}

/// The kind of a counter summary.
pub const COUNTERS: u8 = 1;

/// The kind of a Count-Min table.
pub const CELLS: u8 = 2;
