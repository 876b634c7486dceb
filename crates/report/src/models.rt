//! What is said of lines.

/// That lines are stuck at a value, or slow to leave one.
#[derive(Clone, Copy, PartialEq, Eq)]
pub enum FaultModel {
    StuckAt,
    Transition,
}
