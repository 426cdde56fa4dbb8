//! The inputs that a request names: standard input, pipes and files, how they are read once or more
//! than once, and what is noted of them.
#![tactic(auto)]

mod bad_count;
mod disk_file;
mod input;
mod inputs;
mod kept_pipe;
mod notes;
mod open_file;
mod saved_file;

pub use input::Reader;
pub use inputs::{Inputs, OpenInput, shared_progress};
pub use kept_pipe::temporary_folder;
pub use notes::InputNotes;
pub use open_file::OpenFile;
