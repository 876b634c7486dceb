//! What all rounds are given.
use crate::rounds::Rounds;
use flat_netlist::number_of;
use netlist::{Core, Fault, Holds};
use std::alloc::Global;

/// The netlist with its held inputs, the faults that patterns have to detect, how many patterns there may be at most, and the rounds.
#[derive(Drop)]
pub(crate) struct Aim<'a> {
    pub alloc: Global,
    pub core: &'a Core,
    pub holds: &'a Holds,
    pub faults: &'a [Fault],
    pub most: usize,
    pub rounds: Rounds,
}

impl Aim<'_> {
    /// How many bits a pattern has.
    pub(crate) fn places(&self) -> u32 {
        let netlist = self.core.netlist();
        number_of(netlist.inputs().len()).wrapping_add(number_of(netlist.cells().len()))
    }
}
