//! The steps of a refutation as text, both ways: on one line, each step behind a blank, as `( 5:0110 ; ~ 7:1000 =7 ; ! )`.
//!
//! Gives: `push_steps`, `read_steps`.
//! Proved: `push_steps`: the one text of these steps; `read_steps` exactly; no two lists of steps have one text.
//! Neither: time.
#![tactic(auto)]

mod laws;
mod parts;
mod reading;
mod writing;

pub use laws::one_text;
pub use reading::{TextFault, read_steps};
pub use writing::push_steps;
