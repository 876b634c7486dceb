//! Many slow lines in one netlist of two frames, so that an engine's room serves one search after the other.
//!
//! Gives: `batch`, `MOST_FAULTS`, `are_apart`, `decides_frames`.
//! Proved: `batch`: exactly the two frames with three gates for each of the slow lines, and none only where these are no netlist; `are_apart`: exactly
//! whether no line is late by both; `decides_frames`: exactly whether nothing but the two frames is decided; the law: what is evidence for one of them
//! there is evidence on the two frames in which it alone is slow, under the same held inputs.
//! Tested: run by the command `transition`, by rows of `cases`.
//! Neither: time.
#![tactic(auto)]

mod answers;
mod apart;
mod batches;
pub mod laws;
mod parts;
mod reading;

pub use answers::decides_frames;
pub use apart::are_apart;
pub use batches::{MOST_FAULTS, batch};
