//! Netlists of programs over data: a netlist of a row's text, its signals, lines, faults and classes, and what is told of it: held inputs,
//! patterns, cubes, trees of decisions. Each is read from a text and shown as one.
//!
//! Gives: netlists, patterns and trees as the programs of calls tell and show them; their contracts only carry the premises of what these call.
//! Tested: by these programs.
#![tactic(auto)]

mod chains;
mod classes;
mod designs;
mod holds;
mod names;
mod patterns;
mod trees;
mod values;

pub use chains::chains_of;
pub use classes::{classes_of, have_lines};
pub use designs::{design_core, scanned, scanned_core};
pub use holds::holds_of;
pub use names::{name_of, push_fault, push_line_text, push_names, signal};
pub use patterns::{all_drawn, bits, drawn, patterns_of, push_bits, push_pattern};
pub use trees::{nodes_of, push_tree};
pub use values::{digit_of, push_cube};
