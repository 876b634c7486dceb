//! Tests for slow lines: a batch of drawn patterns, and behind them what two rounds of searches of the faults that are left found, merged, filled and
//! simulated; the patterns that are needed, a verdict for each fault, and its line and its evidence by that. All patterns obey the held inputs.
//!
//! Gives: `batch_of`, `left_by`, `first_round`, `with_tests`, `second_round`, `all_answers`, `tests_of`, `SlowLines`, `Tests`, `TransitionVerdict`,
//! `lines_of`, `leaves_of`.
//! Proved: `batch_of`: 64 patterns, each bit taken in order from stream 1 of the seed, but for held inputs; `left_by`: which faults no pattern of a batch
//! detects, exactly; `first_round`: where more than 128 faults are left exactly those at each sixteenth place, else none;
//! `with_tests`: behind the patterns so far exactly what a round's tests become, merged and filled from stream 2 of the seed; `second_round`: of the faults
//! that are left exactly those with no answer yet; `all_answers`: the answers of both rounds, each at its fault's place;
//! `tests_of`: of the batch and of the tests' cubes, merged and filled from stream 0 of the seed, exactly the patterns that are the last to detect some
//! transition fault, and a verdict for each fault with its evidence, these inputs held: its last pattern and first point, a tree, or a refutation;
//! `lines_of`, `leaves_of`: exactly the lines of transition faults by their verdicts, and the evidence of those that no pattern detects.
//! Tested: run by the command `transition`, by rows of `cases`.
//! Neither: how many patterns there are; time.
#![tactic(auto)]

mod dropping;
mod filling;
mod keeping;
mod leaves;
mod lines;
mod rounds;
mod slow_lines;
mod verdicts;

pub use dropping::{batch_of, left_by};
pub use keeping::tests_of;
pub use leaves::leaves_of;
pub use lines::lines_of;
pub use rounds::{all_answers, first_round, second_round, with_tests};
pub use slow_lines::SlowLines;
pub use verdicts::{Tests, TransitionVerdict};
