//! Gate netlists: signals, faults, and the one notion of settled values on which all simulation stands.
//!
//! Gives: `Netlist`, `Core`, `Fault`, `Holds`, `NoMemory`, and the one evaluator, `Core::settle_into`, over any rule (`Logic`),
//! with its two steps, `drive_sources` and `evaluate_all`.
//! Proved: a `Netlist` is acyclic and reads nothing undefined; `Netlist::new` refuses exactly, in order, with the least signal; each getter exactly;
//! what sources and chosen gates then have; `settle_into`, `outs_into` and `next_into` give what settles by any rule, `eval` the settled bits with a line stuck or none; the laws
//! `holds_everywhere` (induction), `settles_once`, `some_settles`, `settle_alike` (of two rules that keep a relation).
//! Neither: time.
#![tactic(auto)]

mod bits;
mod equations;
mod evaluation;
mod holds;
mod kinds;
mod laws;
mod netlists;
mod no_memory;
mod observing;
mod order;
mod readings;
mod rules;
mod schedules;

pub use bits::Bits;
pub use equations::{Definition, Parts};
pub use evaluation::{Core, Values};
pub use holds::Holds;
pub use kinds::{MOST_PINS, allows};
pub use laws::{holds_everywhere, settle_alike, settles_once, some_settles};
pub use netlists::{MOST_DESIGN_SIGNALS, MOST_SIGNALS, NetRefusal, Netlist};
pub use no_memory::NoMemory;
pub use plain_text::Texts as NameTable;
pub use rules::{Logic, drive_sources, evaluate_all};
pub use schedules::Schedule;
pub use statement::{Fault, Kind, Line, Point, SignalId, Tri};
