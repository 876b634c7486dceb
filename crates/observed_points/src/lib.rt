//! Observed points of a netlist by number, and where a line is read.
//!
//! Gives: `Points`, `point_at`.
//! Proved: `Points`: the signal that each observed point reads, the first point that reads each signal, and the point that alone reads a line.
//! Tested: run below `word_sim` in `calls`.
#![tactic(auto)]

mod points;

pub use points::{Points, point_at};
