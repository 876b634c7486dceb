//! Fanout-free regions: one propagation from the head of a region tells all faults of the region.
//!
//! Gives: `Paths`, `turn`, `turn_four`, `Four`, `Lane`, `TurnedWords`, `TurnedFour`.
//! Proved: a fault is detected at a point exactly where it reaches the head of its fanout-free region and the point observes the head turned over;
//! `Paths`: under which of 64 patterns it reaches it; four heads turned over side by side, each in a lane of its own, settle as each alone.
//! Tested: run below `word_sim` in `calls`.
#![tactic(auto)]

mod controlling;
mod fours;
mod laws;
mod passing;
mod paths;
mod readers;
mod side;
mod turned;
mod turning;

pub use fours::{Four, Lane};
pub use laws::{detected_by_head, observed_by_head, reaches_head, turned_words_settle_as_bits};
pub use paths::Paths;
pub use side::{TurnedFour, side_words_settle_by_lanes};
pub use turned::TurnedWords;
pub use turning::{turn, turn_four};
