//! Lines of JSON, an object each: the members that names name, as the fields of a record.
#![tactic(auto)]

mod fields;
pub mod laws;
mod paths;

pub use fields::{MemberName, members};
