//! Reads STIL files of the project's profile.
//!
//! Gives: `read_stil`.
//! Proved: `read_stil`: a file is read exactly where the bytes have the tokens of a written text; the laws: at most one file has them, a written text
//! is read back, a text has a byte at least for each item.
//! Tested: that it comes to these answers, by rows of `file_calls` and `cases`.
//! Neither: time.
#![tactic(auto)]

mod assigned;
mod bytes;
mod chains;
mod comment;
mod expected;
mod finding;
mod items;
pub mod laws;
mod pattern;
mod reader;
mod signal_block;
mod signals;
mod skipping;
mod token;

pub use reader::{StilFault, read_stil};
