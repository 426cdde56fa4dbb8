//! What neither a clause nor a run of the program shows: devices that fail in mid-stream, a summary
//! confirmed over a stream in memory, and the texts of the libraries' own faults. They are a crate
//! of their own, since a crate with tests is proved twice.
#![tactic(auto)]

#[cfg(test)]
mod asked;
#[cfg(test)]
mod columns;
#[cfg(test)]
mod confirmations;
#[cfg(test)]
mod devices;
#[cfg(test)]
mod faults;
#[cfg(test)]
mod files;
#[cfg(test)]
mod fixtures;
#[cfg(test)]
mod reports;
#[cfg(test)]
mod saved;
#[cfg(test)]
mod seals;
#[cfg(test)]
mod sinks;
