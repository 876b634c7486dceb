//! Scan insertion: the cells of a netlist are dealt in order to chains of nearly one length, each becomes a scan cell, and nothing else that the
//! netlist does changes.
//!
//! Gives: `stitch`, `Chains`; `insert`, `Scanned`, `pin_name`; for whatever is made of a netlist: `netlist_of`, `push_inputs`, `push_joined`.
//! Proved: `stitch`: the cells dealt to chains as the rule says; the getters of `Chains` exactly; `insert`, `site_of`, `pin_name`, and those that make,
//! exactly; the laws: the scanned netlist is sound, behaves as the original with scan off, and shifts with scan on, for each fault at its site or none.
//! Neither: time.
#![tactic(auto)]

mod cells;
mod chains;
mod insertion;
pub mod laws;
mod parts;
mod pin_names;
mod place_table;
mod shift_paths;
mod signal_names;
mod sites;

pub use chains::{Chains, stitch};
pub use insertion::{Scanned, insert, netlist_of};
pub use pin_names::pin_name;
pub use signal_names::{push_inputs, push_joined};
pub use sites::Site;
