//! What a look at a step stands on.

use netlist::{Fault, Netlist};
use refutation::Step;

/// What stays while a step is looked at: a fault of a netlist, the steps before, and the place of the trail from which on it is to be looked at what
/// gates allow.
#[derive(Clone, Copy)]
pub(crate) struct Basis<'a> {
    pub netlist: &'a Netlist,
    pub fault: &'a Fault,
    pub lemmas: &'a [Step],
    pub from: usize,
}
