//! A search that learns clauses, as an engine; and two engines, one after the other.
//!
//! The search (`clause_search`) owes nothing: what it calls a refutation is answered if the independent check (`refutation_check`) accepts it, what it
//! calls a test if the labels of PODEM show one, and else PODEM searches. So a search that is wrong could only be slow.
//!
//! Gives: `Clauses`, `ClauseRoom`; `Then`, `ThenRoom`.
//! Proved: each answer of `Clauses` is a test with its cube, steps that refute the fault, or a tree as PODEM's evidence is; each answer of `Then` keeps
//! the rule of evidence of its two engines.
//! Neither: how often PODEM has to search; time.
#![tactic(auto)]

mod engine;
mod first_tries;
mod sequence;

pub use engine::{ClauseRoom, Clauses};
pub use sequence::{Then, ThenRoom};
