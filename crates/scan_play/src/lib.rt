//! The tester: the vectors of a test, a player of vectors in three values, and the laws that join them to patterns.
//!
//! Gives: `vectors_of`, `play`, `play_before`, with `Vectors`, `Burst`, `Cycle`, `Judge`, `Strict` and `Played`; what other vectors are made of:
//! `flush`, `complement`, `flush_bursts`, `load`, `zero_load`, `bit_in`, `value_out`, `plain`, `single`, `capture`, `respond`, `cell_count`,
//! `no_strobes`, `strobes_of`, `push_known`; what other players are made of: `Plan`, `tick`.
//! Proved: `vectors_of` and all that vectors are made of exactly; the gates that a `Plan` chooses do for each cycle of its burst; `play` exactly,
//! `play_before` up to where any judge of strobes stops it; the laws: from every power-up state the good netlist passes, one with an undetected
//! fault passes, one with a detected fault fails in its cycle at its output; no sequence shows a redundant fault.
//! Tested: that `vectors_of` and `play` come to these answers, by rows of `file_calls` and `cases`.
//! Neither: time.
#![tactic(auto)]

mod applying;
mod cycles;
mod flushing;
mod judging;
mod laws;
mod loading;
mod planning;
mod played;
mod playing;

pub use applying::{capture, cell_count, flush_bursts, plain, respond, single, vectors_of};
pub use cycles::{Burst, Cycle, Vectors, push_known, strobes_of};
pub use flushing::{complement, flush};
pub use judging::{Judge, Strict};
pub use laws::{
    detected_fails, good_passes, no_sequence_detects_redundant, play_tells_the_truth, runs_once,
    some_run, strobes_known, three_values_above_runs, undetected_passes, vectors_counted,
    vectors_decide, vectors_fit, vectors_obey,
};
pub use loading::{bit_in, load, no_strobes, value_out, zero_load};
pub use planning::Plan;
pub use played::Played;
pub use playing::{play, play_before, tick};
