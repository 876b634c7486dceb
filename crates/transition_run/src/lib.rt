//! A test for the slow lines of a design with some inputs held: searches on two frames, the patterns that are needed, and five files.
//!
//! Gives: `transition_files`, `TransitionPlan`, `TransitionFiles`.
//! Proved: `transition_files`: five good files of a design's transition faults (`AreGoodSlowFiles`), and what they say comes true on the tester
//! (`TransitionTheorem`), for every number of workers, searched by any engine that keeps the trait's contract; the report names the held inputs, and
//! each cycle drives them with their bits; where the engine refutes nothing, by trees alone (`TransitionTreeTheorem`).
//! Tested: run by the command `transition`, by rows of `cases`.
//! Neither: how many patterns and aborted faults there are; what passes the stage; time.
#![tactic(auto)]

mod files;
mod rounds;
mod truth;

pub use files::{TransitionFiles, TransitionPlan, transition_files};
