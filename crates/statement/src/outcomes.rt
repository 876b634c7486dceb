//! What came of a fault.

/// What a report says of a fault.
#[derive(Clone, Copy, PartialEq, Eq)]
pub enum Outcome {
    /// A pattern, by its place in the file, and the cycle of the strobe that fails. The pin stands beside.
    Detected(u64, u64),
    Redundant,
    Aborted,
    Unasked,
}
