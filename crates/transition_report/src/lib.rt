//! The certificate and the report of a test for slow lines, both ways. Their lines are those of stuck lines: what differs is the first line, the texts
//! of faults, and that nodes are named in the two frames.
//!
//! Gives: `report_of`, `launch_cycles`, `sight_behind`, `push_fault`, `write_report`, `read_transition_report`, `write_certificate`, `read_transition_certificate`.
//! Proved: each exactly: the numbers of a report, where the tester sees a point, and the texts of report and certificate; the first line of a
//! certificate says whether there are refutations, that of a report whether inputs are held; no two reports have one text, and no two lists of
//! evidence one certificate.
//! Tested: run by the command `transition`, by rows of `cases`.
//! Neither: time.
#![tactic(auto)]

mod certificate_reading;
mod certificates;
mod fault_reading;
mod heads;
mod hold_lines;
mod laws;
mod report_reading;
mod reporting;
mod sights;

pub use certificate_reading::read_transition_certificate;
pub use certificates::{push_fault, write_certificate};
pub use laws::{one_transition_certificate, transition_texts_tell_reports};
pub use report_reading::read_transition_report;
pub use reporting::{TransitionReport, launch_cycles, report_of, write_report};
pub use sights::sight_behind;
