//! Inputs that the tester can't set: each has some bit in each cycle, and nobody knows which. In the opened netlist such an input is a cell that reads
//! itself and stands in no chain, so three-valued play from X has X there in each cycle, and what it says holds whatever the input has.
//!
//! Gives: `open`, `Opened`, `has_known`.
//! Proved: `open` and the getters of `Opened` exactly; the laws: the opened netlist is sound, and each line and each name of the netlist stands in it; what three-valued play
//! shows there allows what the netlist shows whatever the unknown inputs have; so what the player answers there holds of the netlist; a fault that nothing
//! tells while the unknown inputs have 0 fails no test of known bits that the good netlist passes.
//! Neither: time.
#![tactic(auto)]

mod inputs;
mod laws;
mod names;
mod opening;
mod parts;

pub use inputs::has_known;
pub use laws::{
    held_unknown_is_untold, opened_allows, opened_has_lines, opened_is_sound, opened_keeps_names,
    opened_tells_the_truth,
};
pub use opening::{Opened, open};
