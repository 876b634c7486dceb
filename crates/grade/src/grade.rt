//! What a test tells of a stuck line.

/// What a test tells of a stuck line, in the run in three values.
#[derive(Clone, Copy, PartialEq, Eq)]
pub enum Grade {
    /// The cycle, and the output at which the other bit is first known to be shown.
    Detected(u64, u32),
    /// Each strobe of a bit is known to be met.
    Undetected,
    /// No strobe is known to be wrong, and at some of them nothing is known.
    Unknown,
}
