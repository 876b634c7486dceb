//! How many patterns detect each fault, counted to a number, and which patterns are needed for that.
//!
//! 64 patterns at a time, the last ones first. One propagation from the head of a region tells of every fault of the region under which patterns it is
//! detected: those under which it reaches the head, and some point sees the head turned over. What is seen of a head is kept for the batch, so that a head
//! is propagated from once a batch, however high the number is; and a fault for which enough patterns are found isn't looked at again. (To ask `word_sim`
//! for the last pattern again and again, with fewer of them marked, takes a propagation for each detection.)
//!
//! Gives: `last_few_of`, `LastFew`, `times_of`.
//! Proved: each exactly: `times_of`: how many patterns detect each fault, counted to a number; `last_few_of`: the same, and a mark for each pattern
//! that is among the last so many that detect some fault; the laws: there is one such number, and faults that the same patterns detect have the same.
//! Tested: that it comes to these answers, by rows of `calls`.
//! Neither: time.
#![tactic(auto)]

mod counting;
mod last_few;
mod laws;
mod seeing;
mod telling;

pub use last_few::{LastFew, last_few_of, times_of};
pub use laws::{times_alike, times_once};
