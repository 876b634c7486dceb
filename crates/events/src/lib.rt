//! Values settled anew after a change: only what the change reaches is evaluated.
//!
//! Selective trace (event-driven simulation; Ulrich 1969): a signal whose value changed marks the gates that read it, and the marked gate that
//! comes first in the order of evaluation is next. So each gate is evaluated once at most for a change, when all that it reads stands, and a
//! change that dies out costs no more than it reached. Levels or a wheel of times would serve too; the place in the order is finer, and the
//! least mark is found by three levels of bits (`agendas`).
//!
//! Each change goes onto a trail with the value before, so that a search and a fault's simulation go back without evaluating anything.
//! Evaluating all gates anew (`netlist`) is cheaper only where most of them change.
//!
//! Gives: `Events`, `EventRoom`, `Agenda`, `Words`.
//! Proved: `Events`: after a change, a stuck line, other inputs or an undo, the values are the settled ones, and the trail has exactly what changed;
//! words of 64 patterns settle as the bits of each.
//! Tested: run below `podem` and `word_sim` in `calls`.
//! Neither: that work follows what changes.
#![tactic(auto)]

mod agendas;
mod bitmaps;
mod comparing;
mod driving;
mod evaluator;
mod laws;
mod pins;
mod resettling;
mod rooms;
mod tables;
mod trails;
mod watches;
mod words;

pub use agendas::Agenda;
pub use comparing::Comparing;
pub use evaluator::Events;
pub use laws::{
    none_waits, observed_only, rule_changes, source_step_settles, step_settles, stuck_changes,
};
pub use rooms::EventRoom;
pub use trails::Change;
pub use words::{Words, words_settle_as_bits};
