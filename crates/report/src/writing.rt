//! Reports as text.
ghost use Rattle.std.specs.Prelude.{◌≡◌, ◌<◌, ◌≤◌, ◌^◌, ◌/◌, ◌++◌, decimal, IfOk, OnOk};
ghost use Rattle.std.specs.List.{flat_map};
ghost use Rattle.report.specs.Texts.{count_line, counts_text, some_line, times_text, hundredths, share_line, hold_line, head, report_text};
ghost use Rattle.statement.specs.Reports.{outcome_text, fault_line};

use crate::counts::{ReportCounts, count_word};
use crate::fault_lines::FaultLines;
use crate::hold_lines::HoldLines;
use crate::reports::Report;
use crate::times::Times;
use crate::versions::version_of;
use itoa::Buffer;
use netlist::NoMemory;
use statement::Outcome;
use std::alloc::{AllocError, Global};

fn push(out: &mut Vec<u8>, text: &[u8]) -> Result<(), AllocError>
    ensures { OnOk result (out.new.items ≡ out.old.items ++ text.now) }
{
    out.extend_from_slice(text)
}

fn push_number(out: &mut Vec<u8>, number: u64) -> Result<(), AllocError>
    ensures { OnOk result (out.new.items ≡ out.old.items ++ decimal number) }
{
    out.extend_from_slice(Buffer::new().format(number).as_bytes())
}

/// `inputs 5`
fn push_count(out: &mut Vec<u8>, word: &[u8], count: u64) -> Result<(), AllocError>
    ensures { OnOk result (out.new.items ≡ out.old.items ++ count_line word.now count) }
{
    out.extend_from_slice(word)?;
    push_number(out, count)?;
    out.extend_from_slice(b"\n")
}

/// `83.05`
fn push_hundredths(out: &mut Vec<u8>, share: u128) -> Result<(), AllocError>
    requires { share / 100 < 2 ^ 64 }
    ensures { OnOk result (out.new.items ≡ out.old.items ++ hundredths share) }
{
    push_number(out, (share / 100) as u64)?;
    out.extend_from_slice(b".")?;
    push_number(out, (share / 10 % 10) as u64)?;
    push_number(out, (share % 10) as u64)
}

/// Adds the line of a share, `coverage 83.05`, behind its word.
pub fn push_share(out: &mut Vec<u8>, word: &[u8], share: u128) -> Result<(), AllocError>
    requires { share / 100 < 2 ^ 64 }
    ensures { OnOk result (out.new.items ≡ out.old.items ++ share_line word.now share) }
{
    out.extend_from_slice(word)?;
    push_hundredths(out, share)?;
    out.extend_from_slice(b"\n")
}

/// `hold a 1`
fn push_hold(out: &mut Vec<u8>, name: &[u8], bit: bool) -> Result<(), AllocError>
    ensures { OnOk result (out.new.items ≡ out.old.items ++ hold_line (record { name = name.now; bit = bit })) }
{
    out.extend_from_slice(b"hold ")?;
    out.extend_from_slice(name)?;
    if bit {
        out.extend_from_slice(b" 1\n")
    } else {
        out.extend_from_slice(b" 0\n")
    }
}

fn push_holds(out: &mut Vec<u8>, holds: &HoldLines) -> Result<(), AllocError>
    ensures { OnOk result (out.new.items ≡ out.old.items ++ flat_map hold_line holds.now) }
{
    for k in 0..holds.len() {
        let line = holds.get(k);
        push_hold(out, line.name, line.bit)?;
    }
    Ok(())
}

fn push_outcome(out: &mut Vec<u8>, outcome: Outcome, pin: &[u8]) -> Result<(), AllocError>
    ensures { OnOk result (out.new.items ≡ out.old.items ++ outcome_text outcome pin.now) }
{
    match outcome {
        Outcome::Detected(pattern, cycle) => {
            out.extend_from_slice(b" detected ")?;
            push_number(out, pattern)?;
            out.extend_from_slice(b" ")?;
            push_number(out, cycle)?;
            out.extend_from_slice(b" ")?;
            out.extend_from_slice(pin)
        }
        Outcome::Redundant => out.extend_from_slice(b" redundant"),
        Outcome::Aborted => out.extend_from_slice(b" aborted"),
        Outcome::Unasked => out.extend_from_slice(b" unasked"),
    }
}

/// `stem a/0 detected 1 1 y`
fn push_fault(
    out: &mut Vec<u8>,
    fault: &[u8],
    outcome: Outcome,
    pin: &[u8],
) -> Result<(), AllocError>
    ensures { OnOk result (out.new.items ≡ out.old.items ++ fault_line (record { fault = fault.now; outcome = outcome; pin = pin.now })) }
{
    out.extend_from_slice(fault)?;
    push_outcome(out, outcome, pin)?;
    out.extend_from_slice(b"\n")
}

/// Adds the lines of faults.
pub fn push_faults(out: &mut Vec<u8>, lines: &FaultLines) -> Result<(), AllocError>
    ensures { OnOk result (out.new.items ≡ out.old.items ++ flat_map fault_line lines.now) }
{
    for k in 0..lines.len() {
        let line = lines.get(k);
        push_fault(out, line.fault, line.outcome, line.pin)?;
    }
    Ok(())
}

/// Adds the lines of the counts.
pub fn push_counts(out: &mut Vec<u8>, counts: ReportCounts) -> Result<(), AllocError>
    ensures { OnOk result (out.new.items ≡ out.old.items ++ counts_text counts) }
{
    let numbers = counts.to_array();
    for (k, count) in numbers.iter().enumerate() {
        push_count(out, count_word(k), *count)?;
    }
    Ok(())
}

/// `unasked 7`, where there is one.
fn push_some(out: &mut Vec<u8>, word: &[u8], count: u64) -> Result<(), AllocError>
    ensures { OnOk result (out.new.items ≡ out.old.items ++ some_line word.now count) }
{
    if count == 0 {
        return Ok(());
    }
    push_count(out, word, count)
}

/// `detect 3`, and `times 2` for each fault, where detections are counted.
fn push_times(out: &mut Vec<u8>, times: &Times) -> Result<(), AllocError>
    ensures { OnOk result (out.new.items ≡ out.old.items ++ times_text times.now) }
{
    push_some(out, b"detect ", times.most())?;
    let numbers = times.of();
    for number in numbers {
        push_count(out, b"times ", *number)?;
    }
    Ok(())
}

fn push_head(
    out: &mut Vec<u8>,
    most: u64,
    unasked: u64,
    holds: &HoldLines,
) -> Result<(), AllocError>
    ensures { OnOk result (out.new.items ≡ out.old.items ++ head most unasked holds.now) }
{
    push(out, version_of(most, unasked, holds).line())
}

fn push_report(out: &mut Vec<u8>, report: &Report) -> Result<(), AllocError>
    ensures { OnOk result (out.new.items ≡ out.old.items ++ report_text report.now) }
{
    report.sound();
    let counts = report.counts();
    let times = report.times();
    push_head(out, times.most(), counts.unasked, report.holds())?;
    push_counts(out, counts)?;
    push_some(out, b"unasked ", counts.unasked)?;
    push_share(out, b"coverage ", report.coverage())?;
    push_share(out, b"efficiency ", report.efficiency())?;
    push_times(out, times)?;
    push_holds(out, report.holds())?;
    push_faults(out, report.lines())?;
    Ok(())
}

/// The text of a report.
pub fn write_report(alloc: Global, report: &Report) -> Result<Vec<u8>, NoMemory>
    ensures { IfOk result (λ text. text.items ≡ report_text report.now) }
{
    let mut out = Vec::new(alloc);
    match push_report(&mut out, report) {
        Ok(()) => Ok(out),
        Err(_) => Err(NoMemory),
    }
}
