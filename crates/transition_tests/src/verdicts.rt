//! What comes of transition faults.

use cubes::Pattern;
use evidence::Evidence;
use netlist::Point;
use redundancy_cert::Tree;

/// What comes of a transition fault.
#[derive(Drop)]
pub enum TransitionVerdict {
    /// The last pattern that detects it, by its place, and that pattern's first point.
    Detected(u32, Point),
    /// No pattern detects it: evidence on the two frames that leaves nothing open, a tree or a refutation.
    Redundant(Evidence),
    /// No pattern that is kept detects it, and the search gave up: a tree with as many Closed as the backtrack limit allows.
    Aborted(Tree),
}

/// The patterns that are kept, and a verdict for each transition fault, in the order of faults.
#[derive(Drop)]
pub struct Tests {
    pub patterns: Vec<Pattern>,
    pub verdicts: Vec<TransitionVerdict>,
}
