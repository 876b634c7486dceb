//! The STIL file of a test, from its patterns and back.
//!
//! Gives: `stil_of`, `patterns_of`, `applied_patterns`, `are_patterns`.
//! Proved: `stil_of`: exactly the file of patterns; `patterns_of`: exactly the patterns that obey the held inputs and of which a file is that;
//! `applied_patterns`: exactly those that a file applies, whatever it strobes; the laws: their vectors, that the file fits the scanned netlist, read back
//! as itself, one file, one list, an item at least for each pattern, and a file of patterns applies these, whichever netlist's responses it strobes.
//! Tested: that it comes to these answers, by rows of `file_calls`.
//! Neither: time.
#![tactic(auto)]

mod applying;
mod capturing;
pub mod laws;
mod loading;
mod names;
mod obeying;
mod pattern_files;
mod patterns;
mod reading;
mod words;

pub use applying::push_flush;
pub use capturing::{push_capture, push_launch};
pub use loading::{Room, push_load, push_zero_load};
pub use obeying::are_patterns;
pub use pattern_files::{parts_with, stil_of};
pub use patterns::{are_same, patterns_of};
pub use reading::applied_patterns;
