//! The commands that look at a test: `play`, `chaintest` and `grade`.
//!
//! Gives: `play_test`, `test_chains`, `grade_test` with `GradeNames`; for who plays a file of its own: `answer_of`.
//! Proved: `play_test`: 0 and 1 mean exactly what the player answers, which holds on the chip from every power-up state where strobes are known;
//! `test_chains`: each fault of the scan hardware with what the file shows of it; `grade_test`: of each stuck line whether the file detects it; the
//! laws: what is due of the same texts is alike.
//! Tested: run by `atpg_top`.
#![tactic(auto)]

mod chain_testing;
mod cores;
mod grade_lines;
mod grading;
mod pins;
mod playing;
mod told_lines;

pub use chain_testing::test_chains;
pub use grading::{GradeNames, grade_test};
pub use playing::{answer_of, play_test};
