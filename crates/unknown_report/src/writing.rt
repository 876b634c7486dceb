//! Reports as text.
ghost use Rattle.std.specs.Prelude.{◌≡◌, ◌++◌, IfOk, OnOk};
ghost use Rattle.unknown_report.specs.Reports.{unknown_report_text};

use crate::counts_lines::push_counts;
use crate::hold_lines::push_holds;
use crate::line_lists::push_lines;
use crate::numbers::push_numbered;
use crate::reports::UnknownReport;
use crate::unknown_lines::push_unknowns;
use netlist::NoMemory;
use std::alloc::{AllocError, Global};

/// How each of these reports begins.
pub(crate) const HEAD: &[u8] = b"atpg unknown report 1\n";

fn push_report(out: &mut Vec<u8>, report: &UnknownReport) -> Result<(), AllocError>
    ensures { OnOk result (out.new.items ≡ out.old.items ++ unknown_report_text report.now) }
{
    out.extend_from_slice(HEAD)?;
    push_numbered(out, b"chains ", b'\n', report.chains)?;
    push_unknowns(out, &report.unknown)?;
    push_holds(out, &report.holds)?;
    push_counts(out, report.counts)?;
    push_lines(out, &report.lines)?;
    Ok(())
}

/// The text of a report.
pub fn write_unknown_report(alloc: Global, report: &UnknownReport) -> Result<Vec<u8>, NoMemory>
    ensures { IfOk result (λ text. text.items ≡ unknown_report_text report.now) }
{
    let mut out = Vec::new(alloc);
    match push_report(&mut out, report) {
        Ok(()) => Ok(out),
        Err(_) => Err(NoMemory),
    }
}
