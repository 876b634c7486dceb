//! Refutations: lists of clauses, each with the reasons that it follows by, which show a fault redundant.
//!
//! A signal may have some of four pairs of bits, without the fault and with it, and a literal says of which. A step is a clause: where none of its
//! literals is so, each implied literal in turn leaves a gate, an earlier clause, the ways to the observed points or all gates together nothing, unless
//! it is so; and at the end nothing is left. A sweep on the way puts in all that gates alone imply. Who made the steps, and by what search, says nothing:
//! crate `refutation_check` looks at each reason.
//!
//! Gives: `Step`, `Move`, `Implied`, `Literal`, `Reason`, `Pairs`; when steps refute a fault (`Refutes`), as a relation.
//! Proved: the laws: where steps refute a fault no pattern detects it; a fault that is shut off is not detected; a sweep has one result.
#![tactic(auto)]

mod laws;
mod pairs;
mod steps;

pub use laws::{one_sweep, refuted_is_redundant, shut_off_detects_nothing};
pub use pairs::Pairs;
pub use steps::{Implied, Literal, Move, Reason, Step};
