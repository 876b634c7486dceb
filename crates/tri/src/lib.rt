//! Three values: 0, 1 and X, where X stands for either bit. What gates make of them, and the labels that decisions put on signals.
//!
//! Gives: `gate`, `Tri` and its rule, `Label` and its rule.
//! Proved: `gate`: 0 or 1 exactly where every choice of the Xs gives that bit; the laws: three values are above bits, labels above patterns; under a
//! closed label no agreeing pattern tells the fault.
#![tactic(auto)]

mod gates;
mod labelling;
mod labels;
mod laws;
mod together;
mod tris;

pub use gates::gate;
pub use labelling::{Labelling, label_all};
pub use labels::{Label, gate_label, is_known_as, label_of, on_line};
pub use laws::{
    closed_detects_nothing, known_values, labels_above_patterns, more_decisions_more_known,
    redundant_changes_nothing, three_values_above_bits, three_values_alike,
};
pub use together::{Together, known};
pub use tris::Tris;
