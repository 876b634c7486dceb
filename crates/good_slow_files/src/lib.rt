//! Five files of a test for slow lines: when they are what they say, clause by clause in the order of the independent check, and what then comes
//! true of the chip. Nothing here knows of searches or workers.
//!
//! Gives: `TransitionTheorem`, `AreGoodSlowFiles`, the laws that join them.
//! Proved: `good_slow_files_tell_the_truth`: what five texts say of a chip's slow lines comes true under the inputs that they hold
//! (`TransitionTheorem`) where they are right by one whole definition (`AreGoodSlowFiles`), whoever made them; what a check of five files answers,
//! clause by clause (`IsSlowChecked`); the laws: files of which no clause is false are good; good files pass; two answers to the same files agree.
#![tactic(auto)]

mod laws;

pub use laws::{
    good_slow_files_pass, good_slow_files_tell_the_truth, slow_answers_agree, slow_checked_is_good,
};
