//! FAN: a search that stops at head lines. (Fujiwara and Shimono, On the acceleration of test generation algorithms, 1983.)
//!
//! Gives: `Fan`, an `Engine` that decides on head lines, fanout stems, and bound inputs and cells.
//! Proved: each answer is a test with its cube, a tree that shows the fault redundant, or a tree with as many Closed as the backtrack limit; the last
//! never with a backtrack limit of 2 to the number of places or more; no Open where the condition for a test is met.
//! Tested: that it comes to these answers, by rows of `cases` and `calls`.
//! Neither: how it is led; time.
#![tactic(auto)]

mod aims;
mod cases;
mod choosing;
mod engine;
mod forcing;
mod frontier;
mod guides;
mod paths;
mod searching;
mod standing;
mod tracing;
mod voting;
mod wants;

pub use engine::Fan;
