//! Slow lines: which patterns detect them, by launch on capture, and what evidence on their two frames shows.
//!
//! Gives: `last_tells2`; the laws `test_detects_transition`, `shown_has_no_transition`.
//! Proved: `last_tells2`: the last pattern that detects each and its first point, exactly; the laws: a test detects the fault in each pattern that agrees, a
//! closed tree and a refutation leave none that obeys the held inputs.
//! Tested: run by the command `transition`, by rows of `cases`.
//! Neither: time.
#![tactic(auto)]

mod launching;
pub mod laws;
mod telling;

pub use telling::last_tells2;
