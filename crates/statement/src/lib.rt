//! The statement: what `run` and `check` promise of the five texts, every word of it, and the types of the code that it names.
//!
//! Gives: `Kind`, `Tri`, `Line`, `Fault`, `Point`, `SignalId`, `Outcome`; the record `Statement`, and all words on which it rests.
//! Proved: `is_flip_flop`, `is`, `index` exactly. That the statement holds is proved above: the contracts of `check_files` and of `top` reach it.
//! Neither: that these words say what they should; docs/STATEMENT.md is this crate, to be read.
#![tactic(auto)]

mod kinds;
mod lines;
mod outcomes;
mod signals;

pub use kinds::{Kind, Tri};
pub use lines::{Fault, Line, Point};
pub use outcomes::Outcome;
pub use signals::SignalId;
