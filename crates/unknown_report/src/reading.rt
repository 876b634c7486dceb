//! Reports from their text.
ghost use Rattle.std.specs.Prelude.{◌≡◌, ◌≢◌, ◌++◌, IfOk, MatchOption};
ghost use Rattle.report.specs.Reports.{IsBenchWord};
ghost use Rattle.report.specs.Texts.{hold_line};
ghost use Rattle.report.specs.inner.Lines.{IsHold};
ghost use Rattle.unknown_report.specs.declared.reports.UnknownReport.{UnknownReport as Kept};
ghost use Rattle.unknown_report.specs.Reports.{IsUnknownReport, unknown_line, unknown_report_text};
ghost use Rattle.unknown_report.specs.Reading.{IsUnknownReportRead};

use crate::counts_lines::counts_in;
use crate::hold_lines::holds_in;
use crate::line_lists::lines_in;
use crate::numbers::numbered_in;
use crate::reports::UnknownReport;
use crate::unknown_lines::unknowns_in;
use crate::writing::HEAD;
use report::{ReportFault, behind};
use std::alloc::{AllocError, Global};

fn report(alloc: Global, bytes: &[u8]) -> Result<Option<UnknownReport>, AllocError>
    ensures { IfOk result (λ o. MatchOption o
        ((r : Kept) → IsUnknownReport r → bytes.now ≢ unknown_report_text r)
        (λ r. IsUnknownReport r × (bytes.now ≡ unknown_report_text r))) }
{
    let Some(behind_head) = behind(HEAD, bytes) else {
        return Ok(None);
    };
    let Some((chains, behind_chains)) = numbered_in(b"chains ", b'\n', behind_head) else {
        return Ok(None);
    };
    let (unknown, behind_unknown) = unknowns_in(alloc, behind_chains)?;
    let (holds, behind_holds) = holds_in(alloc, behind_unknown)?;
    let Some((counts, behind_counts)) = counts_in(behind_holds) else {
        return Ok(None);
    };
    let Some(lines) = lines_in(alloc, behind_counts)? else {
        return Ok(None);
    };
    Ok(Some(UnknownReport {
        chains,
        unknown,
        holds,
        counts,
        lines,
    }))
}

/// The report with this text; `NotReport` exactly where no report has it.
pub fn read_unknown_report(alloc: Global, bytes: &[u8]) -> Result<UnknownReport, ReportFault>
    ensures { IsUnknownReportRead bytes.now result }
{
    match report(alloc, bytes) {
        Ok(Some(report)) => Ok(report),
        Ok(None) => Err(ReportFault::NotReport),
        Err(_) => Err(ReportFault::NoMemory),
    }
}
