//! The test for slow lines that files say.

use cubes::Pattern;
use evidence::Evidence;
use netlist::{Fault, Holds, Netlist};
use scan_insert::Chains;

/// A netlist, its scan chains, the inputs that are held, how many closed ends a search might make, the patterns of the STIL file and the evidence of
/// the certificate.
#[derive(Clone, Copy)]
pub(crate) struct SlowTrial<'a> {
    pub netlist: &'a Netlist,
    pub chains: &'a Chains,
    pub holds: &'a Holds,
    pub limit: u64,
    pub patterns: &'a [Pattern],
    pub evidence: &'a [(Fault, Evidence)],
}
