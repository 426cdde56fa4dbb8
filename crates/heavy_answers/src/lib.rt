//! What answers a request of the command line: the calls of the libraries that it stands for, with
//! the bytes of the files that it names, in their order.
#![tactic(auto)]

mod answering;
mod host;
mod opening;
mod saved_files;
mod single_pass;

pub use answering::{answer, answer_in_file};
pub use host::Host;
