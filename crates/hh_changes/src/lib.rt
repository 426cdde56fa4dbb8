//! What changed between two streams, as far as the saved summaries of both tell: bounds of the
//! change of each key's weight, which keys' weights surely changed, and the rows of these.
//!
//! `hh_` is heavy hitters, the frequent keys.
#![tactic(auto)]

mod changed;
pub mod laws;
mod printed;
mod sides;

pub use changed::changes;
pub use printed::{change_rows, changes_text};
pub use sides::Sides;
