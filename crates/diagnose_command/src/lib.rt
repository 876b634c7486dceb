//! `diagnose`: the faults that explain what failed on the tester, or those that come nearest to it.
//!
//! Gives: `diagnose_log`, `DiagnoseNames`.
//! Proved: `diagnose_log`: exactly the faults that explain the log, or those that come nearest to it; the law: what is due of the same texts is alike.
//! Tested: run by `atpg_top`.
#![tactic(auto)]

mod cases;
mod diagnosing;
mod nearest_faults;

pub use diagnosing::{DiagnoseNames, diagnose_log};
