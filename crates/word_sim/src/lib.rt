//! Sixty-four patterns at a time, and what they detect.
//!
//! Gives: `good64`, `response64`, `hits`, `last_tells`, `unmarked` and `told_of_all`, `Simulator`, `Batch`, `Hit`; for who simulates on two frames:
//! `good_events`, `next_patterns`, `used_bits`, `last_marked`.
//! Proved: each exactly: the words of up to 64 patterns; `response64`: those that outputs and cells show; which given faults they detect, by which last
//! pattern, at which first point; `last_tells`: of any number of patterns; `unmarked`, `told_of_all`: what it would answer, where faults that no pattern
//! detects are left out; a `Simulator` serves many batches; `good_events`, `next_patterns`: the settled words of patterns, and of others in their place;
//! `used_bits`: the bits that they have; `last_marked`: of patterns that are marked the last that detects a fault, and its first point.
//! Tested: that it comes to these answers, by rows of `calls`, most of them worked out by a plain program from all patterns.
//! Neither: how faults are grouped; time.
#![tactic(auto)]

mod batches;
mod detecting;
mod fault_hits;
mod groups;
mod lanes;
mod last_detected;
mod leaving_out;
mod overlap;
mod packing;
mod passes;
mod shown;
mod simulator;
mod words;

pub use batches::{Batch, Hit};
pub use detecting::last_marked;
pub use fault_hits::{good_events, next_patterns};
pub use last_detected::last_tells;
pub use leaving_out::{told_of_all, unmarked};
pub use packing::used_bits;
pub use simulator::{Simulator, hits};
pub use words::{ResponseWords, Words, good64, response64};
