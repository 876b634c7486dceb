//! PODEM: a search on inputs and cells. (Goel, An implicit enumeration algorithm to generate tests, 1981.)
//!
//! Gives: `Podem`, an `Engine` that decides on inputs and cells; `tried_in`: a test by bits that were found elsewhere.
//! Proved: each answer is a test with its cube, a tree that shows the fault redundant, or a tree with as many Closed as the backtrack limit; the last
//! never with a backtrack limit of 2 to the number of sources or more; `tried_in`: what it answers is a test with its cube.
//! Tested: that it comes to these answers, by rows of `calls`, most of them worked out by a plain program from all patterns.
//! Neither: what guides it; time.
#![tactic(auto)]

mod candidates;
mod engine;
mod guides;
mod searching;

pub use candidates::tried_in;
pub use engine::{Podem, PodemRoom};
