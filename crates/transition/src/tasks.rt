//! What all parts of a search for slow lines are given.
use crate::places::PlaceRule;
use evidence::Engine;
use fault_universe::FaultSet;
use netlist::{Holds, NameTable, Netlist};
use std::alloc::Global;
use std::marker::Model;

/// A design with the names of its two frames and its held inputs, the engine and its limit, what trees are held against, if anything, and the faults, of
/// which some are left. Contracts see it as what is asked.
#[derive(Drop)]
pub(crate) struct Task<'a, E: Engine> {
    pub alloc: Global,
    pub netlist: &'a Netlist,
    pub names: &'a NameTable,
    pub holds: &'a Holds,
    pub engine: &'a E,
    pub limit: u32,
    pub rule: &'a Option<PlaceRule>,
    pub faults: &'a FaultSet,
    pub left: &'a [bool],
}

impl<'a, E: Engine> Model for Task<'a, E> {
    ghost use Rattle.transition.specs.inner.Asked.{Asked, IsTask, asked};

    ghost Value = { Asked };

    ghost view = { λ t. asked t.netlist.now t.holds.now t.limit E.refutes t.faults.now t.left.now };

    ghost invariant = { λ t. IsTask (asked t.netlist.now t.holds.now t.limit E.refutes t.faults.now t.left.now) t.names.now };
}
