//! Where the entries of a saved summary lie in its bytes.

ghost use Rattle.std.specs.Prelude.{◌≡◌, All, IfOk, map};
ghost use Rattle.std.specs.Int.{byte_len};
ghost use Rattle.hh_saved.specs.declared.format.Version.{Version};
ghost use Rattle.hh_saved.specs.declared.saved.Saved.TheVariants.{Counters};
ghost use Rattle.hh_saved.specs.Sizes.{LiesIn, entry_in};
ghost use Rattle.hh_saved.specs.Spelling.{Spells, len_width};

use crate::format::Version;
use crate::reading::take_version;
use hh_summaries::Summary;
use std::alloc::{AllocError, Global};

/// How many bytes stand before the first entry: magic, kind, k, total and the number of entries.
const HEAD: usize = 4 + 1 + 2 + 8 + 2;

/// How many bytes a counter has.
const COUNTER: usize = 8;

/// Where an entry of a saved summary lies: its key is the `len` bytes of the file from `start` on.
/// The fields lie as in C.
#[derive(Clone, Copy, Debug, PartialEq, Eq)]
#[repr(C)]
pub struct Place {
    pub start: usize,
    pub len: usize,
    pub counter: u64,
}

/// Where the entries of a saved summary lie in the bytes that spell it, by rising key.
pub fn places(alloc: Global, bytes: &[u8], summary: &Summary) -> Result<Vec<Place>, AllocError>
    requires { (version : Version) × Spells version bytes.now (Counters summary.now) }
    ensures entries { IfOk result (λ places.
        map (entry_in bytes.now) places.items ≡ summary.now.counters) }
    ensures within { IfOk result (λ places. All (LiesIn bytes.now) places.items) }
{
    let Ok((version, _)) = take_version(bytes) else {
        unreachable!()
    };
    places_in(alloc, version, bytes, summary)
}

/// How many bytes the length of a key has.
fn len_width(version: Version) -> usize
    ensures { result ≡ byte_len (len_width version) }
{
    match version {
        Version::One => 1,
        Version::Two => 2,
    }
}

/// Where the entries lie in the bytes of this version.
fn places_in(
    alloc: Global,
    version: Version,
    bytes: &[u8],
    summary: &Summary,
) -> Result<Vec<Place>, AllocError>
    requires { Spells version bytes.now (Counters summary.now) }
    ensures entries { IfOk result (λ places.
        map (entry_in bytes.now) places.items ≡ summary.now.counters) }
    ensures within { IfOk result (λ places. All (LiesIn bytes.now) places.items) }
{
    let width = len_width(version);
    let mut places = Vec::new(alloc);
    let mut start = HEAD;
    for i in 0..summary.len() {
        let (key, counter) = summary.entry(i);
        start += width;
        let len = key.bytes().len();
        places.push(Place {
            start,
            len,
            counter,
        })?;
        start += len + COUNTER;
    }
    Ok(places)
}
