//! The slow lines that tests are made for.
use fault_universe::FaultSet;
use netlist::{Core, Holds};

/// The slow lines of a design under held inputs, the backtrack limit of their searches, and the seed of the bits that are drawn. Nothing is promised of
/// these together: who needs that they are a design's asks for it.
#[derive(Clone, Copy)]
pub struct SlowLines<'a> {
    pub core: &'a Core,
    pub faults: &'a FaultSet,
    pub holds: &'a Holds,
    pub limit: u32,
    pub seed: u64,
}
