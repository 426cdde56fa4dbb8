//! Count-Min tables (Cormode and Muthukrishnan 2005): hash families, and tables of cells whose
//! least cell of a key is never below the key's weight.
#![tactic(auto)]

mod family;
mod fault;
pub mod laws;
mod modulus;
mod table;
mod taking;

pub use family::{Family, MAX_DEPTH, MAX_WIDTH};
pub use fault::TableFault;
pub use modulus::MODULUS;
pub use table::{Table, sums_to};
