//! The worked rows on keys, streams and cuttings, on summaries, tallies, monitors and candidates,
//! on tables and shared sums, and on plans, merges, passes and analyses. They are a crate of their
//! own, since a crate with tests is proved twice.
#![tactic(auto)]

#[cfg(test)]
mod analyses;
#[cfg(test)]
mod candidates;
#[cfg(test)]
mod fixtures;
#[cfg(test)]
mod hashes;
#[cfg(test)]
mod meetings;
#[cfg(test)]
mod monitors;
#[cfg(test)]
mod one_pass;
#[cfg(test)]
mod passes;
#[cfg(test)]
mod plans;
#[cfg(test)]
mod refusals;
#[cfg(test)]
mod sequential;
#[cfg(test)]
mod streams;
#[cfg(test)]
mod summaries;
#[cfg(test)]
mod sums;
#[cfg(test)]
mod tables;
#[cfg(test)]
mod tallies;
