//! Classes of faults that no test tells apart, as far as single gates show.
//!
//! Gives: `collapse`, `Classes`.
//! Proved: `collapse`: the least equivalence of joined faults, numbered by first members, one list of classes for a netlist; the laws: equivalent
//! faults have equal outputs and next states, and are detected alike.
//! Neither: time.
#![tactic(auto)]

mod classes;
mod collapsing;
mod drivers;
mod gates;
mod joining;
mod laws;
mod union_find;

pub use classes::Classes;
pub use collapsing::collapse;
pub use laws::{bits_control, classes_once, detected_alike, equivalent_agree, equivalent_agree_by};
