//! What a diagnosis is given, and none of its parts changes.
ghost use Rattle.std.specs.Prelude.{◌<◌};

use fault_collapse::Classes;
use fault_universe::FaultSet;
use netlist::Core;
use scan_insert::Scanned;
use std::alloc::Global;

/// A design that was scanned, its scanned netlist with an order of evaluation, and its faults and their classes.
#[derive(Drop)]
pub struct ScannedDesign<'a> {
    pub core: &'a Core,
    pub scanned: &'a Scanned,
    pub faults: &'a FaultSet,
    pub classes: &'a Classes,
}

/// Who searches: how many workers, what starts them, memory, and the stage that they pass.
#[derive(Drop)]
pub struct Search<'a, R, G> {
    pub rt: &'a R,
    pub alloc: Global,
    pub stage: &'a G,
    pub workers: u32,
    pub ghost some: { 0 < workers },
}
