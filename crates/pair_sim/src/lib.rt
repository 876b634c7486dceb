//! Good and faulty values under a path of decisions.
//!
//! Gives: `PairSim`, `SimRoom`, `State`.
//! Proved: `PairSim`: under each path of decisions all labels exactly, by events, taken back exactly, in a room that serves one fault after another;
//! `state`: a test, closed, or neither.
//! Tested: labels and the trail, by rows of `list_calls`.
#![tactic(auto)]

mod laws;
mod levels;
mod points;
mod reach;
mod rooms;
mod sims;
mod states;
mod steps;

pub use laws::free_is_undecided;
pub use rooms::SimRoom;
pub use sims::PairSim;
pub use states::State;
