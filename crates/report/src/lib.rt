//! The report of a run: a verdict for each fault, and the numbers above; its text both ways.
//!
//! Gives: `Report`, `FaultLines`, `HoldLines`, `Times`, `write_report`, `read_report`.
//! Proved: `write_report`: a report's one text, in all four versions; `read_report` exactly, texts one to one with reports; the type keeps what every
//! report is.
//! Tested: that it comes to these answers, by rows of `file_calls`.
//! Neither: time.
#![tactic(auto)]

mod counts;
mod fault_lines;
mod fault_words;
mod hold_lines;
mod laws;
mod lines;
mod models;
mod pieces;
mod reading;
mod reports;
mod times;
mod versions;
mod writing;

pub use counts::ReportCounts;
pub use fault_lines::{FaultLine, FaultLines};
pub use hold_lines::HoldLines;
pub use laws::texts_tell_reports;
pub use lines::share;
pub use models::FaultModel;
pub use pieces::{behind, is_word};
pub use reading::{ReportFault, asked_counts, fault_list, read_report};
pub use reports::Report;
pub use statement::Outcome;
pub use times::Times;
pub use writing::{push_counts, push_faults, push_share, write_report};
