//! Reports of tests with unknown inputs.

use crate::claims::ClaimCounts;
use netlist::NameTable;
use report::HoldLines;

/// How many chains there are, the unknown inputs by name, the held ones with their bits, how many claims there are of each kind, and a line for each
/// fault, without its end.
#[derive(Drop)]
pub struct UnknownReport {
    pub chains: u64,
    pub unknown: NameTable,
    pub holds: HoldLines,
    pub counts: ClaimCounts,
    pub lines: NameTable,
}
