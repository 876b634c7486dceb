//! Certificates: for each class that no pattern detects, its representative and the evidence, a tree of decisions or a refutation; their text, both ways.
//! docs/CERTIFICATE_AND_REPORT.md has the format.
//!
//! Gives: `write_evidence`, `read_evidence`, `push_evidence`, `has_refutation`, `is_one_tree`.
//! Proved: `write_evidence`: a certificate's one text; `read_evidence` exactly; no two lists of evidence have one text, and the first line tells whether
//! there are refutations; `is_one_tree`: whether nodes are one tree in preorder.
//! Tested: that it comes to these answers, by rows of `calls` and `file_calls`.
//! Neither: time.
#![tactic(auto)]

mod kinds;
mod laws;
mod line;
mod node;
mod one_tree;
mod reading;
mod word;
mod writing;

pub use kinds::has_refutation;
pub use laws::{first_line_tells, one_certificate};
pub use line::evidence_of;
pub use one_tree::is_one_tree;
pub use reading::{CertFault, read_evidence};
pub use word::{cut_fault, next_word};
pub use writing::{push_evidence, push_nodes, write_evidence};
