//! What a pass of fault simulation is of: up to 64 patterns at the points of a netlist, and faults by the heads of their regions. No part of the pass
//! changes it, so its functions are handed it as one, and beside it what they change: the words, the lists, what is told.
use cubes::Pattern;
use netlist::{Fault, SignalId};
use observed_points::Points;

/// The head that a fault may reach, and the patterns under which it does.
pub(crate) type Reach = Option<(SignalId, u64)>;

/// The patterns of a pass, and the faults, linked by their heads.
#[derive(Clone, Copy)]
pub(crate) struct Pass<'p> {
    pub points: &'p Points,
    pub patterns: &'p [Pattern],
    /// A bit for each pattern.
    pub used: u64,
    pub faults: &'p [(u32, Fault)],
    /// Of each fault.
    pub reaches: &'p [Reach],
    /// The next fault with the same head as each, or a number that isn't above its own.
    pub links: &'p [u32],
    /// The signals that are heads of faults, each once.
    pub heads: &'p [SignalId],
    /// For each signal the first fault that may reach it as a head, of those that are linked.
    pub latest: &'p [u32],
}
