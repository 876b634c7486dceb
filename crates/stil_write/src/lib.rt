//! STIL files of the project's profile: the value and its text.
//!
//! Gives: `write_stil`, `StilFile`.
//! Proved: `write_stil`: the one text of a file; a `StilFile` is always sound.
//! Tested: that it comes to a text, by rows of `file_calls`.
//! Neither: time.
#![tactic(auto)]

mod checking;
mod forms;
mod items;
mod laws;
mod parts;
mod pieces;
mod signals;
mod writer;

pub use items::{ItemKind, Items};
pub use parts::{StilFile, StilParts};
pub use plain_text::Texts;
pub use signals::{assigned, called, numbered};
pub use writer::write_stil;
