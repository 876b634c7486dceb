//! The numbers above the lines of a report.
ghost use Rattle.std.specs.Prelude.{◌≡◌, ◌+◌, ◌-◌, ◌*◌, ◌<◌, ◌≤◌, ◌^◌};
ghost use Rattle.scan_insert.specs.Scanned.{AreChainsOf};
ghost use Rattle.run_report.specs.Heads.{one_if_aborted, count_of, counts_of, counts_with, one_if_detected, one_if_redundant, one_if_unasked, share_of};
ghost use Rattle.run_report.specs.inner.Tallies.{AreTallied};

use netlist::Netlist;
use report::{FaultLines, Outcome, ReportCounts};
use scan_insert::Chains;

/// How many lines are of each kind.
#[derive(Clone, Copy, PartialEq, Eq)]
pub struct Tally {
    pub detected: u64,
    pub redundant: u64,
    pub aborted: u64,
    pub unasked: u64,
}

impl Tally {
    fn none() -> Tally
        ensures { (result.detected ≡ 0) × (result.redundant ≡ 0) × (result.aborted ≡ 0) × (result.unasked ≡ 0) }
    {
        Tally {
            detected: 0,
            redundant: 0,
            aborted: 0,
            unasked: 0,
        }
    }

    /// One line more.
    fn with(self, outcome: Outcome) -> Tally
        requires { self.detected + self.redundant + self.aborted + self.unasked < 2 ^ 64 - 1 }
        ensures detected { result.detected ≡ self.detected + one_if_detected outcome }
        ensures redundant { result.redundant ≡ self.redundant + one_if_redundant outcome }
        ensures aborted { result.aborted ≡ self.aborted + one_if_aborted outcome }
        ensures unasked { result.unasked ≡ self.unasked + one_if_unasked outcome }
    {
        let mut tally = self;
        match outcome {
            Outcome::Detected(_, _) => tally.detected += 1,
            Outcome::Redundant => tally.redundant += 1,
            Outcome::Aborted => tally.aborted += 1,
            Outcome::Unasked => tally.unasked += 1,
        }
        tally
    }
}

/// Counts lines by their kinds.
pub fn tally_of(lines: &FaultLines) -> Tally
    ensures kinds { AreTallied lines.now result }
    ensures fits { result.detected + result.redundant + result.aborted + result.unasked < 2 ^ 64 }
{
    let mut tally = Tally::none();
    for k in 0..lines.len() {
        tally = tally.with(lines.get(k).outcome);
    }
    tally
}

/// The cycles of a test: the flush, a load and a capture for each pattern, and a last load.
#[tactic(auto, using(crate::proofs::CycleLemmas::small_product))]
fn cycles_of(longest: u64, patterns: u64) -> u64
    requires longest { longest ≤ 8000000 }
    requires patterns { patterns < 2 ^ 32 }
    ensures { result ≡ (patterns + 4) * longest + patterns }
{
    (patterns + 4) * longest + patterns
}

/// The counts of a report: of a netlist and its chains, of so many faults, classes, patterns and cycles, with this backtrack limit, and of its lines.
pub fn counts_with(
    netlist: &Netlist,
    chains: &Chains,
    faults: u32,
    classes: u32,
    patterns: u32,
    cycles: u64,
    limit: u64,
    lines: &FaultLines,
) -> ReportCounts
    ensures { result ≡ counts_with netlist.now chains.now faults classes patterns cycles limit lines.now }
{
    netlist.sound();
    let tally = tally_of(lines);
    let cells = netlist.cells().len();
    ReportCounts {
        inputs: netlist.inputs().len() as u64,
        outputs: netlist.outputs().len() as u64,
        gates: (netlist.definitions().len() - cells) as u64,
        cells: cells as u64,
        chains: chains.count() as u64,
        faults: faults as u64,
        classes: classes as u64,
        patterns: patterns as u64,
        cycles,
        limit,
        detected: tally.detected,
        redundant: tally.redundant,
        aborted: tally.aborted,
        untested: tally.redundant + tally.aborted,
        unasked: tally.unasked,
    }
}

/// The counts of the report of a test of stuck lines.
pub fn counts_of(
    netlist: &Netlist,
    chains: &Chains,
    faults: u32,
    classes: u32,
    patterns: u32,
    limit: u64,
    lines: &FaultLines,
) -> ReportCounts
    requires { AreChainsOf netlist.now chains.now }
    ensures { result ≡ counts_of netlist.now chains.now faults classes patterns limit lines.now }
{
    netlist.sound();
    let cycles = cycles_of(chains.longest() as u64, patterns as u64);
    counts_with(
        netlist, chains, faults, classes, patterns, cycles, limit, lines,
    )
}

/// So many of all faults, in hundredths of a percent, rounded down.
pub fn share_of(faults: u32, count: u64) -> u128
    requires { 0 < faults }
    ensures { result ≡ share_of faults count }
{
    10000 * count as u128 / faults as u128
}
