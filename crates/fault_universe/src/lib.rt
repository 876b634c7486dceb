//! The single stuck-at faults of a netlist: their list, and their texts.
//!
//! Gives: `universe`, `FaultSet`, `text_of`, `fault_named`.
//! Proved: `universe`, `text_of` exactly; `fault_named` exactly, over a netlist or an index of its names; texts one to one with members.
//! Neither: time.
#![tactic(auto)]

mod fault_sets;
mod fault_texts;
mod laws;
mod named_faults;
mod signal_names;

pub use fault_sets::{FaultSet, branches, signal_count, universe};
pub use fault_texts::{push_line, push_text, text_of};
pub use laws::{faults_have_lines, faults_have_signals, few_faults, texts_differ};
pub use named_faults::fault_named;
pub use signal_names::SignalNames;
