//! The five files of a run: from a design to its scanned netlist, the test, the certificate and the report.
//!
//! Gives: `make_files`, `RunPlan`, `Wanted`, `RunFiles`.
//! Proved: `make_files`: good files of a design, with the run theorem, for every number of workers and interleaving, searched by any engine that
//! keeps the trait's contract; a line says that its fault wasn't asked for where it wasn't, and elsewhere only where enough are detected; what the
//! first patterns detect of what is asked for is detected; each pattern is among the last so many that detect some class as are asked for; where more
//! than one is, no two patterns are equal, and the report says of each fault how many detect it.
//! Tested: run by `run`.
//! Neither: how many patterns and aborted faults there are; that so many patterns detect each fault as are asked for; what passes the stage; that a run
//! stops once enough are detected, and that it doesn't search for what the first patterns detect.
#![tactic(auto)]

mod asked;
mod case;
mod choosing;
mod compacting;
mod differing;
mod drawing;
mod files;
mod finding;
mod first;
mod last;
mod leaves;
mod lines;
mod near;
mod repeating;
mod reporting;
mod searching;
mod spreading;
mod stitching;
mod telling;
mod texts;
mod truth;

pub use asked::{RunPlan, Wanted};
pub use files::{RunFiles, make_files};
