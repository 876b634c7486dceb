//! What the checks of five files share, of stuck lines and of slow ones: the netlist and the STIL file read, the scanned netlist's text, the held
//! inputs that a report names, the checkers of evidence of either kind, the first evidence of each fault, the certificate's order, and the fault that a
//! false line names.
//!
//! Gives: `FiveTexts`, `core_of`, `file_of`, `scanned_as`, `Stitched`, `holds_by`, `first_ends`, `ends_on`, `Firsts`, `first_stray`, `named_at`.
//! Proved: `core_of`, `file_of`: the netlist and the file of a text, or why it has none, exactly; `scanned_as`: whether there may be so many chains and
//! this is the scanned netlist's text, with both, exactly; `holds_by`: the held inputs that lines name, where they are inputs, each once at most, in
//! order, exactly; `ends_on`: whether evidence shows a fault, exactly, with its closed and open ends, and `first_ends` of each fault's first; `Firsts`:
//! where the first evidence of each fault stands, if there is some; `first_stray`: the first evidence that isn't, in order, that of one of these faults;
//! `named_at`: the fault that a report names at a place.
//! Tested: run by `check`, by rows of `cases`.
//! Neither: time.
#![tactic(auto)]

mod checkers;
mod ends;
mod firsts;
mod holding;
mod naming;
mod scanning;
mod strays;
mod texts;

pub use ends::{ends_on, first_ends};
pub use firsts::Firsts;
pub use holding::holds_by;
pub use naming::named_at;
pub use scanning::{Stitched, scanned_as};
pub use strays::first_stray;
pub use texts::{FiveTexts, core_of, file_of};
