//! What each share of the suspects is given to be played.
ghost use Rattle.std.specs.Prelude.{◌^◌, ◌<◌, length};
ghost use Rattle.std.specs.List.{All};
ghost use Rattle.scan_play.specs.Cycles.{IsCycleOf};

use crate::marks::Marks;
use netlist::{Core, Fault};
use scan_play::Vectors;
use std::alloc::Global;

/// Suspects, the netlist and the cycles on which they are played, and the marks of the failures that they should show.
#[derive(Drop)]
pub(crate) struct Play<'a> {
    pub alloc: Global,
    pub core: &'a Core,
    pub suspects: &'a [Fault],
    pub vectors: &'a Vectors,
    pub marks: &'a Marks,
    pub ghost fits: { All (IsCycleOf core.now) vectors.now },
    pub ghost few: { length vectors.now < 2 ^ 64 },
}
