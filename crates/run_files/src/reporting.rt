//! The report as a value, and how often faults are detected.
ghost use Rattle.std.specs.Prelude.{◌≡◌, ◌<◌, IfOk, length, map, slice_index};
ghost use Rattle.std.specs.List.{All};
ghost use Rattle.statement.specs.Faults.{universe_of};
ghost use Rattle.report.specs.Reports.{AreCounted, IsLine};
ghost use Rattle.run_files.specs.inner.Cases.{AreFoundOf, IsCase};
ghost use Rattle.run_files.specs.inner.Reports.{AreTimes, IsReported};

use crate::case::Case;
use crate::searching::represented;
use detections::{times_alike, times_of};
use fault_collapse::{Classes, detected_alike};
use list_core::Finished;
use netlist::NoMemory;
use report::{FaultLines, Report, Times};
use run_report::{counts_of, hold_lines, share_of, tally_of};
use std::alloc::{AllocError, Global};

/// Each fault's number: that of its class.
fn by_class(
    alloc: Global,
    classes: &Classes,
    faults: u32,
    numbers: &[u32],
) -> Result<Vec<u64>, AllocError>
    requires size { length classes.now.numbers ≡ faults }
    requires within { All (λ class. class < length numbers.now) classes.now.numbers }
    ensures { IfOk result (λ v. v.items ≡ map (slice_index numbers.now) classes.now.numbers) }
{
    let mut all = Vec::new(alloc);
    for i in 0..faults {
        all.push(numbers[classes.class_of(i) as usize] as u64)?;
    }
    Ok(all)
}

/// How many of the patterns detect each fault, counted to so many, where more than one is asked for: as many as detect its class's representative.
pub(crate) fn times_said(case: &Case<'_>, found: &Finished) -> Result<Times, NoMemory>
    requires case { IsCase case.now }
    requires found { AreFoundOf case.now found.now }
    ensures { IfOk result (AreTimes case.now.netlist.now found.now.patterns.items case.now.plan.times) }
{
    let alloc = case.alloc;
    let most = case.plan.times;
    if most == 1 {
        return Ok(Times::none(alloc));
    }
    let classes = &case.subject.classes;
    case.netlist.sound();
    represented(case.core, classes);
    detected_alike();
    times_alike();
    let patterns = found.patterns.as_slice();
    let numbers = times_of(alloc, case.core, classes.representatives(), patterns, most)?;
    let of = by_class(alloc, classes, case.subject.faults.len(), &numbers)?;
    Ok(Times::new(most as u64, of))
}

/// The report of these lines, for so many patterns.
pub(crate) fn report_of(
    case: &Case<'_>,
    patterns: u32,
    times: Times,
    lines: FaultLines,
) -> Result<Report, NoMemory>
    requires case { IsCase case.now }
    requires times { AreCounted times }
    requires lines { length lines ≡ length (universe_of case.now.netlist.now) }
    requires sound { All IsLine lines }
    ensures reported { IfOk result (IsReported case.now.netlist.now case.now.chains.now case.now.holds.now (length (universe_of case.now.netlist.now)) (length case.now.subject.now.classes.representatives) patterns case.now.plan.limit lines) }
    ensures times { IfOk result (λ report. report.times ≡ times) }
{
    let netlist = case.netlist;
    netlist.sound();
    let faults = case.subject.faults.len();
    let tally = tally_of(&lines);
    let held = hold_lines(case.alloc, netlist, case.holds)?;
    let counts = counts_of(
        netlist,
        case.chains,
        faults,
        case.subject.classes.count(),
        patterns,
        case.plan.limit as u64,
        &lines,
    );
    counts.sound();
    let coverage = share_of(faults, tally.detected);
    let efficiency = share_of(faults, tally.detected + tally.redundant);
    Ok(Report::new(counts, coverage, efficiency, times, held, lines))
}
