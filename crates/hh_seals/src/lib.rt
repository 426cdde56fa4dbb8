//! Sealed files.
//!
//! A sealed file is a saved one with the decimals of its weights and a digest: the four bytes
//! `HVY1`, the decimals, the spelling of a value, and the SHA-256 of all bytes before it. A file of
//! which a byte has changed is opened only where two texts have one digest.
#![tactic(auto)]

pub mod laws;
mod opening;
mod sealing;

pub use hh_faults::SavedFault;
pub use opening::{Contents, open, unsealed};
pub use sealing::{MAX_DECIMALS, seal};
