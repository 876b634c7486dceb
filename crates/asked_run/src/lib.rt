//! `run`: what it is asked for, and the five files that it makes of that.
//!
//! Gives: `run_netlist`, `RunWords`; for who runs what no words ask for: `by_trees`, `Task`, `all_faults`.
//! Proved: `run_netlist`: good files of the netlist that was read, with the run theorem, for the inputs, the faults and the first patterns that the
//! words and the files name, and the line with their numbers; the law: what is due of the same texts is alike.
//! Tested: run by `atpg_top`.
#![tactic(auto)]

mod asking;
mod running;

pub use asking::all_faults;
pub use running::{RunWords, Task, by_trees, run_netlist};
