//! Calls on netlists, faults, trees and searches, as rows of `calls`: netlists with each refusal, settled bits for every fault, input and state of
//! small netlists, sites, classes, gates over 0, 1 and X, merged cubes, fills, samples, decision trees, searches, what patterns detect and how
//! often, and the evaluator by events beside evaluation from scratch.
//!
//! Gives: `NetlistCalls`, by which each line is a call.
//! Tested: by `calls`.
#![tactic(auto)]

mod by_events;
mod cubes_of;
mod detection;
mod faults;
mod names;
mod nets;
mod scans;
mod script;
mod searches;
mod trees;
mod values;

pub use script::NetlistCalls;
