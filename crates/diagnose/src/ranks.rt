//! How near a fault comes to a log.

/// A fault, by its place in the list of faults: how many failures of a log its run misses, and at how many strobes more it may fail.
#[derive(Clone, Copy, PartialEq, Eq)]
pub struct Ranked {
    pub place: u32,
    pub missing: u64,
    pub extra: u64,
}
