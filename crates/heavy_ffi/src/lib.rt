//! The calls of `heavy` for C, each over values in memory that C has by handles. The header
//! include/heavy.h says what a caller owes. The library's own calls, which the header declares, are
//! made of these: they hand on what is lent, the address of something in place of NULL.
//!
//! Each call answers a status: 0 done, 1 to 4 as the program's exit status, 5 the room `out` is too
//! small, and nothing else. At 1 to 4 `fault` says why; at 0 and 5 it has zeros.
#![tactic(auto)]

mod change;
mod fault;
mod fault_text;
mod file_call;
mod handle;
mod hash_words;
mod held;
mod info;
mod items;
mod layout;
mod passes;
mod questions;
mod report;
mod room;

ghost use Rattle.std.specs.Prelude.{◌≡◌, ◌≢◌, ◌≤◌, ◌⊎◌, length};
ghost use Rattle.hh_saved.specs.Sizes.{most_summary_bytes};
ghost use Rattle.hh_summaries.specs.Counters.{max_k};
ghost use Rattle.hh_stream.specs.Weights.{max_key_len};

pub use fault::Fault;
pub use handle::Heavy;
pub use hash_words::HashWords;
use hh_counters::MAX_K;
use hh_stream::MAX_KEY_LEN;
pub use info::Info;
pub use layout::TextLayout;
pub use room::Bounds;
use room::give;

/// The number of this interface.
const VERSION: u32 = 1;

/// The number of this interface, which a header or a binding has to have been written for.
#[unsafe(no_mangle)]
pub extern "C" fn proved_version() -> u32
    ensures { result ≡ 1 }
{
    VERSION
}

/// The version of the program that the library came with.
const RELEASE: &[u8] = b"1.0.0";

/// Gives the version of the program that the library came with.
#[unsafe(no_mangle)]
pub extern "C" fn proved_release(out: &mut [u8], needed: &mut usize) -> u32
    ensures statuses { (result ≡ 0) ⊎ (result ≡ 5) }
    ensures within { result ≡ 0 → needed.new ≤ length out.old }
    ensures unchanged { result ≢ 0 → out.new ≡ out.old }
{
    give(RELEASE, out, needed)
}

/// Gives the most bytes of a saved summary with `k` counters, whose keys have at most `longest`
/// bytes: of a larger number, as of the largest that there can be.
#[unsafe(no_mangle)]
pub extern "C" fn proved_summary_room(k: u64, longest: u64) -> usize
    ensures { k ≤ max_k → longest ≤ max_key_len → result ≡ most_summary_bytes k longest }
{
    (17 + k.min(MAX_K) * (longest.min(MAX_KEY_LEN as u64) + 10)) as usize
}
