//! Keys, weighted items, and streams of them; and reads and writes that are tried again.
#![tactic(auto)]

mod borrowed_key;
mod cutting;
mod fault;
mod key;
mod key_hash;
pub mod laws;
mod ranges;
pub mod retrying;
mod sketch;
mod stream;
mod taking;

pub use borrowed_key::BorrowedKey;
pub use cutting::{Cutting, MAX_PIECES};
pub use fault::StreamFault;
pub use key::{INLINE_LEN, Key, MAX_KEY_LEN};
pub use key_hash::{KeyHash, KeyHasher};
pub use ranges::in_range;
pub use sketch::{Sketch, add_each};
pub use stream::{Item, MAX_TOTAL, PushRefused, Stream};
pub use taking::{PieceFault, TakeItems};
