//! What a STIL file does on a tester, and the file of a test.
//!
//! Gives: `vectors`, `fits`, `play_file`, `cycle_count`.
//! Proved: `vectors`: exactly what a file does cycle by cycle; `fits` exactly; `play_file` plays a file that fits exactly; the file of a test, as it
//! is defined, has the test's vectors.
//! Tested: that `fits` and `play_file` (and `vectors` below it) come to these answers, by rows of `cases`.
//! Neither: time.
#![tactic(auto)]

mod calls;
mod characters;
mod file_vectors;
mod fitting;
mod laws;
mod playing;

pub use file_vectors::vectors;
pub use fitting::fits;
pub use laws::{fitting_cycles, test_vectors};
pub use playing::{cycle_count, play_file};
