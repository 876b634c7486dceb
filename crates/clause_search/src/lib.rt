//! A search that learns clauses: for a stuck fault a candidate for a test, or the steps of a refutation.
//!
//! First what gates imply of the fault alone is looked at over the whole netlist; most refutations end there. Else the part of the netlist that the
//! fault reaches, with all that is read there, takes part: a difference is driven to the nearest observed signal, and what that rests on is made; after
//! four contradictions decisions go by weight. A room keeps weights from fault to fault, and facts: bits that signals have whatever the fault.
//!
//! Gives: `Room` with its `search`; `Settled`.
//! Proved: its calls are safe and end, whatever the room held. What it answers is verified by whoever takes it.
//! Neither: how soon an answer comes.
#![tactic(auto)]

mod analysing;
mod causes;
mod engine;
mod frontiers;
mod habits;
mod lemmas;
mod meetings;
mod queues;
mod searching;
mod ways;
mod writing;

pub use engine::{Room, Settled};
