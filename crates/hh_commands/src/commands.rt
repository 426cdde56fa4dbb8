//! One module for each command of the program.

pub(crate) mod ask;
pub(crate) mod condense;
pub(crate) mod confirm;
pub(crate) mod describe;
pub(crate) mod list;
pub(crate) mod merge;
pub(crate) mod summarise;
pub(crate) mod table;
