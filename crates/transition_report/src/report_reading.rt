//! Reports of transition faults from their text. What reports of stuck lines have too is read as it is there.
ghost use Rattle.std.specs.Prelude.{◌≡◌, ◌≢◌, List, IfOk, MatchOption};
ghost use Rattle.report.specs.Reports.{Hold};
ghost use Rattle.statement.specs.Reports.{Line};
ghost use Rattle.transition_report.specs.declared.reporting.TransitionReport.{TransitionReport as Kept};
ghost use Rattle.transition_report.specs.Texts.{transition_report_text};
ghost use Rattle.transition_report.specs.Reading.{IsTransitionReport, IsTransitionReportRead};
ghost use Rattle.transition_report.specs.inner.Tables.{AreTables, tables_text};

use crate::heads::{head_in, is_any_held};
use crate::hold_lines::holds_in;
use crate::reporting::TransitionReport;
use report::{FaultLines, FaultModel, HoldLines, ReportFault, asked_counts, fault_list, share};
use std::alloc::{AllocError, Global};

/// The held inputs and the lines of faults, of which the whole text is made, where inputs are held exactly if the first line says so.
fn tables(
    alloc: Global,
    held: bool,
    text: &[u8],
) -> Result<Option<(HoldLines, FaultLines)>, AllocError>
    ensures { IfOk result (λ o. MatchOption o
        ((hs : List Hold) (ls : List Line) → AreTables held hs ls → text.now ≢ tables_text hs ls)
        (λ p. AreTables held p.0 p.1 × (text.now ≡ tables_text p.0 p.1))) }
{
    let (holds, rest) = holds_in(alloc, text)?;
    let Some(lines) = fault_list(alloc, FaultModel::Transition, rest)? else {
        return Ok(None);
    };
    if is_any_held(&holds) == held {
        Ok(Some((holds, lines)))
    } else {
        Ok(None)
    }
}

fn report(alloc: Global, bytes: &[u8]) -> Result<Option<TransitionReport>, AllocError>
    ensures { IfOk result (λ o. MatchOption o
        ((r : Kept) → IsTransitionReport r → bytes.now ≢ transition_report_text r)
        (λ r. IsTransitionReport r × (bytes.now ≡ transition_report_text r))) }
{
    let Some((held, behind_head)) = head_in(bytes) else {
        return Ok(None);
    };
    let Some((counts, behind_counts)) = asked_counts(behind_head) else {
        return Ok(None);
    };
    let Some((coverage, behind_coverage)) = share(b"coverage ", behind_counts) else {
        return Ok(None);
    };
    let Some((efficiency, behind_shares)) = share(b"efficiency ", behind_coverage) else {
        return Ok(None);
    };
    let Some((holds, lines)) = tables(alloc, held, behind_shares)? else {
        return Ok(None);
    };
    Ok(Some(TransitionReport {
        counts,
        coverage,
        efficiency,
        holds,
        lines,
    }))
}

/// The report with this text; `NotReport` exactly where no report has it.
pub fn read_transition_report(alloc: Global, bytes: &[u8]) -> Result<TransitionReport, ReportFault>
    ensures { IsTransitionReportRead bytes.now result }
{
    match report(alloc, bytes) {
        Ok(Some(report)) => Ok(report),
        Ok(None) => Err(ReportFault::NotReport),
        Err(_) => Err(ReportFault::NoMemory),
    }
}
