//! The report of transition faults: its numbers, and its text.
ghost use Rattle.std.specs.Prelude.{◌≡◌, ◌+◌, ◌*◌, ◌<◌, ◌≤◌, ◌^◌, ◌++◌, IfOk, OnOk, length};
ghost use Rattle.report.specs.Counts.{AreSmallCounts};
ghost use Rattle.scan_insert.specs.Scanned.{AreChainsOf};
ghost use Rattle.statement.specs.Faults.{universe_of};
ghost use Rattle.transition_report.specs.Texts.{transition_report_text};
ghost use Rattle.transition_report.specs.Numbers.{IsReportOf, HasWritableShares};

use crate::heads::{head_line, is_any_held};
use crate::hold_lines::push_holds;
use netlist::{Netlist, NoMemory};
use report::{FaultLines, HoldLines, ReportCounts, push_counts, push_faults, push_share};
use run_report::{counts_with, share_of, tally_of};
use scan_insert::Chains;
use std::alloc::{AllocError, Global};

/// What a test says of a design's transition faults: the counts of a report, coverage and efficiency in hundredths of a percent, the inputs that
/// are held, and a line for each fault.
#[derive(Drop)]
pub struct TransitionReport {
    pub counts: ReportCounts,
    pub coverage: u128,
    pub efficiency: u128,
    pub holds: HoldLines,
    pub lines: FaultLines,
}

/// How many cycles so many patterns take.
#[tactic(auto, using(run_report::proofs::CycleLemmas::small_product))]
pub fn launch_cycles(longest: u64, patterns: u64) -> u64
    requires longest { longest ≤ 8000000 }
    requires patterns { patterns < 2 ^ 32 }
    ensures { result ≡ (patterns + 4) * longest + 2 * patterns }
{
    (patterns + 4) * longest + 2 * patterns
}

/// The report of these lines, one for each fault, for so many patterns, with this backtrack limit and these inputs held.
pub fn report_of(
    netlist: &Netlist,
    chains: &Chains,
    patterns: u32,
    limit: u32,
    lines: FaultLines,
    holds: HoldLines,
) -> TransitionReport
    requires chains { AreChainsOf netlist.now chains.now }
    requires lines { length lines ≡ length (universe_of netlist.now) }
    requires few { length lines < 2 ^ 32 }
    ensures report { IsReportOf netlist.now chains.now patterns limit lines result }
    ensures sized { HasWritableShares result }
    ensures holds { result.holds ≡ holds }
    ensures counts { AreSmallCounts result.counts }
{
    netlist.sound();
    let faults = lines.len() as u32;
    let tally = tally_of(&lines);
    let cycles = launch_cycles(chains.longest() as u64, patterns as u64);
    let counts = counts_with(
        netlist,
        chains,
        faults,
        faults,
        patterns,
        cycles,
        limit as u64,
        &lines,
    );
    counts.sound();
    let coverage = share_of(faults, tally.detected);
    let efficiency = share_of(faults, tally.detected + tally.redundant);
    TransitionReport {
        counts,
        coverage,
        efficiency,
        holds,
        lines,
    }
}

fn push_report(out: &mut Vec<u8>, report: &TransitionReport) -> Result<(), AllocError>
    requires { HasWritableShares report.now }
    ensures { OnOk result (out.new.items ≡ out.old.items ++ transition_report_text report.now) }
{
    out.extend_from_slice(head_line(is_any_held(&report.holds)))?;
    push_counts(out, report.counts)?;
    push_share(out, b"coverage ", report.coverage)?;
    push_share(out, b"efficiency ", report.efficiency)?;
    push_holds(out, &report.holds)?;
    push_faults(out, &report.lines)?;
    Ok(())
}

/// The text of a report.
pub fn write_report(alloc: Global, report: &TransitionReport) -> Result<Vec<u8>, NoMemory>
    requires { HasWritableShares report.now }
    ensures { IfOk result (λ text. text.items ≡ transition_report_text report.now) }
{
    let mut out = Vec::new(alloc);
    match push_report(&mut out, report) {
        Ok(()) => Ok(out),
        Err(_) => Err(NoMemory),
    }
}
