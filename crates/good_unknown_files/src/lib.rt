//! Five files of a test with inputs that the tester can't set: when they are what they say, clause by clause in the order of the independent check, and what
//! then comes true of the chip whatever the unknown inputs have. Nothing here knows of searches or workers.
//!
//! Gives: `UnknownTheorem`, `AreGoodUnknownFiles`, the laws that join them.
//! Proved: `good_unknown_files_tell_the_truth`: what five texts claim of a chip comes true whatever its unknown inputs have in each cycle and from every
//! power-up state (`UnknownTheorem`) where they are right by one whole definition (`AreGoodUnknownFiles`), whoever made them; what a check of five files
//! answers, clause by clause (`IsUnknownChecked`); the laws: files of which no clause is false are good; good files pass; two answers to the same files agree.
#![tactic(auto)]

mod laws;

pub use laws::{
    good_unknown_files_pass, good_unknown_files_tell_the_truth, unknown_answers_agree,
    unknown_checked_is_good,
};
