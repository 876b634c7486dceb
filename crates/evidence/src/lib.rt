//! Evidence that a fault is redundant: a tree of decisions, or a refutation. Each has its own independent checker, and neither knows of the other.
//!
//! Gives: `Evidence`, `Refutation`, and of them what shows a fault redundant (`Shows`), as a relation; `Engine` and `Found`: what every search has to
//! answer.
//! Proved: the laws: evidence that leaves no open end shows the fault redundant; what leaves one is a tree.
#![tactic(auto)]

mod engine;
mod kinds;
mod laws;

pub use engine::{Engine, Found};
pub use kinds::{Evidence, Refutation};
pub use laws::shown_is_redundant;
