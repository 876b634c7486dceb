//! The report of a test whose inputs the tester can't all set: what is claimed of each stuck line whatever the unknown inputs have, both ways.
//!
//! Its lines are those of a list of grades, with one claim more. They are kept as texts: what a line has to be follows from the netlist, the test and the
//! evidence, so that whoever checks one compares it and needs no grammar of lines.
//!
//! Gives: `Claim`, `ClaimCounts`, `UnknownReport`, `counts_of`, `push_claim_line`, `write_unknown_report`, `read_unknown_report`.
//! Proved: each exactly: the line of a claim, the counts of claims, and a report's one text; `unknown_texts_tell_reports`: no two reports have one text.
//! Tested: nothing; no command calls it yet.
//! Neither: time.
#![tactic(auto)]

mod claim_lines;
mod claims;
mod counts_lines;
mod hold_lines;
mod laws;
mod line_lists;
mod numbers;
mod reading;
mod reports;
mod unknown_lines;
mod writing;

pub use claim_lines::push_claim_line;
pub use claims::{Claim, ClaimCounts, counts_of};
pub use laws::unknown_texts_tell_reports;
pub use reading::read_unknown_report;
pub use reports::UnknownReport;
pub use writing::write_unknown_report;
