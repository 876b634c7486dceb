//! Labels by events: the rule of labels for values that settle anew, and what a change of a decision or of the fault leaves to settle.
//!
//! Gives: `LabelRule`, `line_place`.
//! Proved: the laws: at which signal alone a decision or a fault leaves the labels to settle.
//! Tested: run below `podem` and `word_sim` in `calls`.
#![tactic(auto)]

mod laws;
mod line_places;
mod rule;
mod watched;

pub use laws::{decision_changes, fault_changes, fault_changes_nothing, source_is_driven};
pub use line_places::{LinePlace, line_place};
pub use rule::LabelRule;
