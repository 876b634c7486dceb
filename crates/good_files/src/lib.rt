//! Five files: when they are what they say, clause by clause in the order of the independent check, and what then comes true of the chip.
//! Nothing here knows of searches, lists or workers.
//!
//! Gives: `Statement`, `AreGoodFiles`, `RunTheorem`, `TreeTheorem`, `Checked`, `Clause`, `CheckFault`, the laws that join them.
//! Proved: `good_files_tell_the_truth`: of five texts that are right by one whole definition (`AreGoodFiles`), whoever made them, the statement holds
//! (`Statement`), with how they are read and the evidence of each line (`RunTheorem`); what a check of five files answers, clause by clause
//! (`IsChecked`); the laws: files of which no clause is false are good and have the run theorem; good files pass; two answers to the same files agree;
//! a certificate that begins as those of trees did has trees alone, and its files all that is said of these (`TreeTheorem`); where no line says
//! that its fault wasn't asked for, the certificate has the evidence of exactly the classes that no pattern detects; where detections are counted,
//! each fault has a number, which is 0 exactly where no pattern detects it.
#![tactic(auto)]

mod answers;
mod laws;

pub use answers::{CheckFault, Checked, Clause};
pub use laws::{
    all_asked_as_before, answers_agree, checked_is_good, good_files_pass,
    good_files_tell_the_truth, times_tell_detected, trees_as_before,
};
