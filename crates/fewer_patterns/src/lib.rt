//! Fewer patterns that detect as much: tester time is what a buyer pays for.
//!
//! Each pattern is relaxed to the bits that the faults left to it need, relaxed patterns that don't contradict each other are merged, and what stays
//! open is filled anew. (Kajihara and Miyase, On identifying don't care inputs of test patterns, 2001.) Which bits are needed is found by tracing
//! values from the point where a fault is detected back to inputs and cells; that owes nothing, since a round's patterns are taken only where a
//! simulation says that they detect as much. That simulation also says to which of them each fault is left in the next round, so a round costs one,
//! over the faults that some pattern detects. Tracing is shared: what is followed goes back to inputs and cells for 64 patterns at once, and the way
//! of a difference from the head of a fanout-free region on once a pattern for all faults of the region. Where over nine tenths of the bits are
//! needed a round is the last. The workers deal the patterns among them, no more workers than there are words of 64 patterns: what one needs rests on
//! no other, though 64 are traced together, and where fewer go together the tracing shares less than a second processor gains. The last
//! few patterns, which detect seven tenths of what is detected, need most of their bits and cost most: they stay as they are, and the rounds go over
//! those before and the faults that are left to these. Where there are few patterns these would be most, so there all are relaxed. To choose among
//! the given patterns alone (a cover) costs a table of all that each pattern detects, and leaves a seventh more of them.
//!
//! Gives: `fewer`, `Rounds`, `ToldPatterns`.
//! Proved: `fewer`: patterns of the netlist that obey the held inputs, no more than were given, which detect each of the faults that the given ones do;
//! and the last of them that detects each fault, with its first point.
//! Tested: that there are fewer, by rows of `cases`; that the files are the same for every number of workers, by the runs of `tools/program_tests.py`.
//! Neither: how many fewer; that workers relax patterns beside each other; time.
#![tactic(auto)]

mod aims;
mod arranging;
mod filling;
mod fronts;
mod merging;
mod relaxing;
mod rounds;
mod rows;
mod sorting;
mod tracing;
mod ways;
mod worlds;

pub use fronts::ToldPatterns;
pub use rounds::{Rounds, fewer};
