//! Netlists as .bench text, the format of the ISCAS'89 benchmarks: [`read`] with its refusals, and [`write`], which is canonical.
//! docs/BENCH.md has the format.
//!
//! Gives: `read`, `write`, and what a text in another order is written with: `push_ports`, `push_equation`.
//! Proved: `read` exactly, with every refusal; `write`: the one canonical text; reading it gives an equal netlist; `push_ports`, `push_equation`: its lines.
//! Neither: time.
#![tactic(auto)]

mod draft;
mod keywords;
mod laws;
mod line;
mod lines;
mod numbered;
mod parts;
mod reader;
mod refusal;
mod sights;
mod statements;
mod token;
mod whole;
mod writer;

pub use laws::canonical_text_is_read;
pub use reader::read;
pub use refusal::{BenchFault, BenchKind, BenchRefusal, Names};
pub use writer::{push_equation, push_ports, write};
