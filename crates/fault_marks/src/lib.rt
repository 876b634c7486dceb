//! Lists of faults: some of a netlist's faults, each named by a line of a text.
//!
//! Gives: `read_marks`, `MarksRefusal`.
//! Proved: `read_marks`: for each fault of the netlist whether some line is its text, exactly; refused exactly where a line is no fault's text, with
//! the first such line.
//! Tested: run by `run --faults`.
//! Neither: that it takes no longer than there are bytes and faults.
#![tactic(auto)]

mod marking;
mod named_lines;
mod reading;
mod refusal;

pub use reading::read_marks;
pub use refusal::{MarksRefusal, Stranger};
