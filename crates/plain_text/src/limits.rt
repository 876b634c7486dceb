//! How far the numbers of a command go. The command line refuses by them, and what works within them cites them.

/// The most chains that may be asked for.
pub const MOST_CHAINS: u64 = 256;

/// The most workers that may be asked for.
pub const MOST_WORKERS: u64 = 64;

/// The greatest backtrack limit: the most ends that a search may close.
pub const MOST_LIMIT: u64 = 100_000;

/// The fewest gates of a sample netlist.
pub const FEWEST_GATES: u64 = 16;

/// The most gates of a sample netlist.
pub const MOST_GATES: u64 = 20_000;
