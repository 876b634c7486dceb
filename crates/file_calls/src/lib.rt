//! Calls on files, as rows of `calls`: reports, certificates, vectors and STIL files, the patterns that a file applies, and the first strobe that is
//! known to be wrong.
//!
//! Gives: `FileCalls`, by which each line is a call.
//! Tested: by `calls`.
#![tactic(auto)]

mod certificates;
mod refutations;
mod reports;
mod script;
mod setups;
mod stil_files;
mod vectors;
mod wrong;

pub use script::FileCalls;
