//! Grading a test: which stuck lines of a design the cycles of a STIL file detect.
//!
//! Where the file is the test of some patterns, the lines are graded by these, 64 a word; else each is played in three values, 128 side by side.
//!
//! Gives: `Grade`, `GradedDesign`, `grades`.
//! Proved: `grades`: of each stuck line exactly whether the other bit is known to be shown at some strobe, and where first, or each strobe is known to be
//! met, or neither; the laws: what is detected fails from every power-up state, and what is undetected passes from every one; the grade by patterns is
//! that of the run in three values; on a run's own test the grades agree with its report.
//! Tested: that it comes to these answers, by rows of `cases`, worked out by a plain program.
//! Neither: what passes the stage; time.
#![tactic(auto)]

mod batching;
mod by_patterns;
mod grade;
mod grading;
mod keys;
mod laws;
mod spotting;
mod spreading;
mod test_patterns;

pub use grade::Grade;
pub use laws::{agrees_with_report, detected_fails, patterns_grade, undetected_passes};
pub use spreading::{GradedDesign, grades};
