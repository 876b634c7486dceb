//! The independent check of five files of slow lines: whether they are what they say, clause by clause, as the check of stuck lines. It stands on
//! readers, on the checkers of trees and of refutations and on the simulator, and on no search, list or worker.
//!
//! Gives: `check_slow_files`.
//! Proved: `check_slow_files`: exactly the first of five texts that is outside its grammar, else the first clause that is false with its slow line, or how
//! many there are; where it is the last, what the files say of the chip's slow lines comes true (`TransitionTheorem`), whoever made them.
//! Tested: that it comes to these answers, by rows of `cases`, worked out by a plain program.
//! Neither: time.
#![tactic(auto)]

mod checking;
mod evident;
mod faults;
mod findings;
mod leftovers;
mod reading;
mod totals;
mod trials;
mod truth;
mod walking;

pub use checking::check_slow_files;
