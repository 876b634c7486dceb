//! Cases of a program over files in memory, as data: what a case is told to be, how it is run, and how what a run leaves is shown. The programs
//! themselves are run by who hands in a `Runner`, so that what is shown of them is proved apart from all that stands below them.
//!
//! Gives: `report`, what comes of an input on cases; `Runner`, `Program`, `Ran`, by which the programs are run.
//! Tested: by `cases`.
#![tactic(auto)]

mod case;
mod checks;
mod files;
mod groups;
mod runs;
mod script;
mod showing;
mod sweeps;
mod telling;

pub use runs::{Program, Ran, Runner};
pub use script::report;
