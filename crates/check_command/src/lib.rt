//! The command `check` of a prefix: it reads the five files of that prefix, checks them as files of stuck lines or, where the report begins so, of slow
//! ones, and shows how many faults were checked or the first clause that is false. [`check_top`] is a whole program that does nothing else.
//!
//! It stands on the independent checks alone, and on no search, list, lock or worker, so that a buyer of patterns can have it by itself.
//!
//! Gives: `check_texts`, `check_prefix`, `check_top`.
//! Proved: `check_prefix`, `check_top`: 0 and 1 mean exactly what is answered of the five files read, and 0 that they have the run theorem, or for slow
//! lines the transition theorem; each other status has its cause; `good_files_checked`, `good_slow_files_checked`: good files are due nothing but 0.
//! Tested: that it comes to these answers, by rows of `cases`.
#![tactic(auto)]

mod command;
mod laws;
mod lines;
mod refusal;
mod status;
mod top;

pub use command::{check_prefix, check_texts};
pub use laws::{check_exclusive, good_files_checked, good_slow_files_checked};
pub use refusal::CheckRefusal;
pub use status::CheckStatus;
pub use top::check_top;
