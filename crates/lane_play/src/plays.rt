//! What cycles are given that are played one behind the other, and none of them changes.
ghost use Rattle.std.specs.Prelude.{◌+◌, ◌^◌, ◌<◌};

use crate::stuck::Stuck;
use netlist::{Core, SignalId};
use scan_play::Burst;

/// What all cycles of a play are given: the netlist, the machines with their stuck lines, and who judges what they show.
#[derive(Drop)]
pub(crate) struct Play<'a, J> {
    pub core: &'a Core,
    pub rule: Stuck<'a>,
    pub judge: &'a J,
}

/// What all cycles of a burst are given: the number of the first one, and the gates that each of them evaluates.
#[derive(Drop)]
pub(crate) struct Passage<'a> {
    pub burst: &'a Burst,
    pub first: u64,
    pub steps: &'a [SignalId],
    pub ghost few: { first + burst.now.count < 2 ^ 64 },
}
