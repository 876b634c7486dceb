//! Tests of a netlist with inputs that the tester can't set: which files set the others alone, and whether they drive the held ones so.
//!
//! Gives: `fits_known`, `obeys_known`, `known_holds`, `zeroed`; the laws `known_cycles`, `sites_are_lines`.
//! Proved: `fits_known`: exactly whether a file's signals are the pins of a netlist without its unknown inputs; `obeys_known`: exactly whether each cycle
//! drives the held inputs with their bits; `known_holds`, `zeroed`: exactly what holds the known inputs, and the holds with the unknown ones at 0; the
//! laws: such a file has cycles of the opened netlist's widths; a fault of a design stands, at its site, on a line of the scanned netlist.
//! Tested: nothing; no command calls it yet.
//! Neither: time.
#![tactic(auto)]

mod fitting;
mod holding;
mod laws;
mod obeying;

pub use fitting::fits_known;
pub use holding::{known_holds, zeroed};
pub use laws::{known_cycles, sites_are_lines};
pub use obeying::obeys_known;
