//! What follows of a stuck fault, for a search that owes nothing: what it answers is verified by whoever takes it.
//!
//! Twice the same notion. The *first look* goes over the whole netlist, with nothing decided: each signal has a set of pairs of bits, without the fault
//! and with it, and gates narrow these until nothing changes; most refutations end there. Then the part of the netlist that the fault reaches, with all
//! that is read there, has variables: the bits of a signal in both worlds, and whether they differ. What is decided of these implies more, forward and
//! backward, by gates and by learned clauses, and each has its reason.
//!
//! Gives: `FirstLook`, with `Reach` and `Facts`; `Cone`, `Trail`, `Clauses`, `spread`, `visit_gate`; reasons (`Cause`, `clause_reason`, `clause_of`);
//! literals (`literal`, `variable_of`, `bit_of`, `opposite`).
//! Proved: its calls are safe and end, whatever was kept.
//! Neither: that what is implied follows; time.
#![tactic(auto)]

mod cones;
mod first_looks;
mod implying;
mod known_facts;
mod literals;
mod reaches;
mod sets;
mod spreading;
mod trails;
mod watches;

pub use cones::Cone;
pub use first_looks::{FirstLook, Seen};
pub use implying::{Cause, visit_gate};
pub use known_facts::Facts;
pub use literals::{bit_of, literal, opposite, variable_of};
pub use reaches::Reach;
pub use spreading::spread;
pub use trails::{Trail, UNSET};
pub use watches::{Clauses, clause_of, clause_reason};
