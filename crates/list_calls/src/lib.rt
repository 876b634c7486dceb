//! Calls of the list of fault classes, as rows of `calls`: of the list and of its lock, what compaction keeps, a worker's work in one thread, with a
//! goal and without, labels with their trail, words of patterns.
//!
//! Gives: `ListCalls`, by which each line is a call.
//! Tested: by `calls`.
#![tactic(auto)]

mod compaction;
mod from_texts;
mod goals;
mod hands;
mod labels;
mod list_text;
mod lists;
mod playing;
mod script;
mod searches;
mod sharing;
mod topics;
mod verbs;

pub use script::ListCalls;
