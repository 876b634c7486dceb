//! Reports from their text: line by line, each line as it is written.
ghost use Rattle.std.specs.Prelude.{◌≡◌, ◌≢◌, ◌<◌, ◌++◌, List, IfOk, MatchOption};
ghost use Rattle.std.specs.List.{All, flat_map};
ghost use Rattle.report.specs.Reading.{IsReportRead};
ghost use Rattle.report.specs.Counts.{AreAllAsked, AreSmallCounts};
ghost use Rattle.report.specs.Reports.{Hold, Report as Kept, Times as Counted, IsLineBy, IsReport};
ghost use Rattle.statement.specs.Reports.{Line, fault_line};
ghost use Rattle.report.specs.Texts.{counts_text, hold_line, report_text};
ghost use Rattle.report.specs.inner.Counts.{AreNumbers, CountsBegin, counts_lines, numbers_text};
ghost use Rattle.report.specs.Beginnings.{Begins, NoneBegins};
ghost use Rattle.report.specs.inner.Lines.{TimesBegin, IsHold};
ghost use Rattle.report.specs.inner.Tables.{AreTables, tables_text};

use crate::counts::{COUNTS, ReportCounts, count_word};
use crate::fault_lines::FaultLines;
use crate::hold_lines::HoldLines;
use crate::lines::{count, fault, hold, share, some_count};
use crate::models::FaultModel;
use crate::reports::Report;
use crate::times::Times;
use crate::versions::{Version, version_in};
use std::alloc::{AllocError, Global};

#[derive(Clone, Copy, PartialEq, Eq)]
pub enum ReportFault {
    NotReport,
    NoMemory,
}

/// The counts that every report has a line of, and what stands behind them.
fn numbers(text: &[u8]) -> Option<([u64; COUNTS], &[u8])>
    ensures { MatchOption result (NoneBegins AreNumbers numbers_text text.now) (λ p. Begins AreNumbers numbers_text text.now p.0 p.1.now) }
{
    let mut numbers = [0; COUNTS];
    let mut rest = text;
    for k in 0..COUNTS {
        let (number, after) = count(count_word(k), rest)?;
        numbers[k] = number;
        rest = after;
    }
    Some((numbers, rest))
}

/// All counts, and what stands behind their lines.
fn counts(text: &[u8]) -> Option<(ReportCounts, &[u8])>
    ensures { MatchOption result (NoneBegins AreSmallCounts counts_lines text.now) (λ p. CountsBegin text.now p.0 p.1.now) }
{
    let (numbers, behind_numbers) = numbers(text)?;
    let (unasked, rest) = some_count(b"unasked ", behind_numbers);
    Some((ReportCounts::of(numbers, unasked), rest))
}

/// The counts that every report has a line of, where none weren't asked for, and what stands behind their lines.
pub fn asked_counts(text: &[u8]) -> Option<(ReportCounts, &[u8])>
    ensures { MatchOption result (NoneBegins AreAllAsked counts_text text.now) (λ p. Begins AreAllAsked counts_text text.now p.0 p.1.now) }
{
    let (numbers, rest) = numbers(text)?;
    Some((ReportCounts::of(numbers, 0), rest))
}

/// How often faults are detected, as lines say it, and what stands behind these.
fn times<'a>(alloc: Global, text: &'a [u8]) -> Result<(Times, &'a [u8]), AllocError>
    ensures { IfOk result (λ p. TimesBegin text.now p.0 p.1.now) }
{
    let (most, behind_most) = some_count(b"detect ", text);
    let mut of = Vec::new(alloc);
    let mut rest = behind_most;
    'times: while let Some((number, after)) = count(b"times ", rest) {
        of.push(number)?;
        rest = after;
    }
    Ok((Times::new(most, of), rest))
}

/// All inputs that are held, and what stands behind their lines.
fn holds<'a>(alloc: Global, text: &'a [u8]) -> Result<(HoldLines, &'a [u8]), AllocError>
    ensures { IfOk result (λ p. All IsHold p.0 × (text.now ≡ flat_map hold_line p.0 ++ p.1.now) × NoneBegins IsHold hold_line p.1.now) }
{
    let mut holds = HoldLines::new(alloc);
    let mut rest = text;
    'holds: while let Some((line, after)) = hold(rest) {
        holds = holds.push(line.name, line.bit)?;
        rest = after;
    }
    Ok((holds, rest))
}

/// The lines of faults, of which the whole text is made.
pub fn fault_list(
    alloc: Global,
    model: FaultModel,
    text: &[u8],
) -> Result<Option<FaultLines>, AllocError>
    ensures { IfOk result (λ o. MatchOption o
        ((ls : List Line) → All (IsLineBy model) ls → text.now ≢ flat_map fault_line ls)
        (λ ls. All (IsLineBy model) ls × (text.now ≡ flat_map fault_line ls))) }
{
    let mut lines = FaultLines::new(alloc);
    let mut rest = text;
    'faults: while !rest.is_empty() {
        let Some((line, after)) = fault(model, rest) else {
            return Ok(None);
        };
        lines = lines.push(line.fault, line.outcome, line.pin)?;
        rest = after;
    }
    Ok(Some(lines))
}

/// What lines say of faults and inputs, where the version is that of such a report.
fn tables(
    alloc: Global,
    version: Version,
    unasked: u64,
    text: &[u8],
) -> Result<Option<(Times, HoldLines, FaultLines)>, AllocError>
    ensures { IfOk result (λ o. MatchOption o
        ((ts : Counted) (hs : List Hold) (ls : List Line) → AreTables version unasked ts hs ls → text.now ≢ tables_text ts hs ls)
        (λ p. AreTables version unasked p.0 p.1 p.2 × (text.now ≡ tables_text p.0 p.1 p.2))) }
{
    let (times, behind_times) = times(alloc, text)?;
    let (holds, rest) = holds(alloc, behind_times)?;
    if !times.are_counted() {
        return Ok(None);
    }
    if !version.is_of(times.most(), unasked, &holds) {
        return Ok(None);
    }
    let Some(lines) = fault_list(alloc, FaultModel::StuckAt, rest)? else {
        return Ok(None);
    };
    Ok(Some((times, holds, lines)))
}

fn report(alloc: Global, bytes: &[u8]) -> Result<Option<Report>, AllocError>
    ensures { IfOk result (λ o. MatchOption o ((r : Kept) → IsReport r → bytes.now ≢ report_text r) (λ r. IsReport r × (bytes.now ≡ report_text r))) }
{
    let Some((version, behind_head)) = version_in(bytes) else {
        return Ok(None);
    };
    let Some((counts, behind_counts)) = counts(behind_head) else {
        return Ok(None);
    };
    let Some((coverage, behind_coverage)) = share(b"coverage ", behind_counts) else {
        return Ok(None);
    };
    let Some((efficiency, behind_shares)) = share(b"efficiency ", behind_coverage) else {
        return Ok(None);
    };
    let Some((times, holds, lines)) = tables(alloc, version, counts.unasked, behind_shares)? else {
        return Ok(None);
    };
    Ok(Some(Report::new(counts, coverage, efficiency, times, holds, lines)))
}

/// The report with this text; `NotReport` exactly where no report has it.
pub fn read_report(alloc: Global, bytes: &[u8]) -> Result<Report, ReportFault>
    ensures { IsReportRead bytes.now result }
{
    match report(alloc, bytes) {
        Ok(Some(report)) => Ok(report),
        Ok(None) => Err(ReportFault::NotReport),
        Err(_) => Err(ReportFault::NoMemory),
    }
}
