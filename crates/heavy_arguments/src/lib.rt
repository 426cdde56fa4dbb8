//! The command line of the program, as `clap` reads it: its commands, their arguments, and what
//! help says of them.
#![tactic(auto)]

pub mod arguments;
mod help;
mod options;
mod verbs;

pub use arguments::command_line;
pub use options::Named;
pub use verbs::{Pass, Verb};
