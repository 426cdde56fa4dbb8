//! What the machine gives the program, and what it gets: the words of the command line, the files
//! and inputs that these name, all of which are bytes, the file that an answer replaces, standard
//! streams, and the exit status.
#![tactic(auto)]

mod files;
mod opening;
mod out_file;
mod replacing;
mod standard;
mod status;
mod unread;
mod words;

pub use files::{FileSource, read_file, read_files};
pub use opening::{Named, is_standard, open_file, open_input};
pub use out_file::{NoOut, OtherKind, OutFile, random_name};
pub use replacing::{Replaced, replace};
pub use standard::{HeldNumbers, hold_closed};
pub use status::{numbered, print_fault, status_after, status_of};
pub use unread::Unread;
pub use words::{WordSource, bytes_of, read_words, texts_of};
