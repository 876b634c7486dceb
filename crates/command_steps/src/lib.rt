//! The steps of a command's work: what its texts stand for, or why they are refused; and what it writes and shows.
//!
//! Gives: `Refusal`, `netlist_of`, `fault_of`, `stil_of`, `fitting`, `cycles_of`, `design_of`, `scanned_of`, `faults_of`, `core_of`, `holds_of`,
//! `in_order`, `Ordered`, `OneFile`, `one_file_product`, `five_files_product`, `tests_line`, `push_count`.
//! Proved: each step exactly: the netlist, the fault, the file or the held inputs that the texts and the words name, or the refusal that they
//! have; `in_order`: the netlist put in the order that a text says; `tests_line`: the line with a report's numbers.
//! Tested: run by `atpg_top` and the crates of its commands.
#![tactic(auto)]

mod design;
mod five_files;
mod holding;
mod one_file;
mod ordering;
mod reading;
mod refusal;

pub use design::{core_of, design_of, faults_of, scanned_of};
pub use five_files::{five_files_product, push_count, tests_line};
pub use holding::holds_of;
pub use one_file::{OneFile, one_file_product};
pub use ordering::{Ordered, in_order};
pub use reading::{cycles_of, fault_of, fitting, netlist_of, stil_of};
pub use refusal::Refusal;
