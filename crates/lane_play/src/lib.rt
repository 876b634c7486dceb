//! Faulty machines, played 128 side by side.
//!
//! Gives: `play_lanes`, `count_lanes`.
//! Proved: for each stuck line, as if it were played alone, `play_lanes`: exactly what a judge first says of its run in three values; `count_lanes`, of up
//! to 128: of exactly how many strobes he says something, on either of two sides.
//! Tested: run below `chain_test` and `diagnose` by rows of `cases`.
//! Neither: time.
#![tactic(auto)]

mod bits;
mod counting;
mod cycles;
mod evaluating;
mod judging;
mod legs;
mod packed;
mod packing;
mod pins;
mod planning;
mod playing;
mod plays;
mod spans;
mod stuck;
mod watching;

pub use counting::{Counts, Sides, count_lanes};
pub use legs::play_lanes;
