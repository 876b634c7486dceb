//! The slow lines whose evidence a certificate has to have.
ghost use Rattle.std.specs.Prelude.{◌≡◌, ◌<◌, ◌^◌, length, IfOk};
ghost use Rattle.run_report.specs.Outcomes.{has_evidence};
ghost use Rattle.good_slow_files.specs.GoodSlowFiles.{slow_left_of};

use fault_universe::FaultSet;
use netlist::Fault;
use report::{FaultLines, Outcome};
use std::alloc::{AllocError, Global};

/// Whether a line of this outcome rests on evidence.
fn has_evidence(outcome: Outcome) -> bool
    ensures { result ≡ has_evidence outcome }
{
    match outcome {
        Outcome::Detected(_, _) => false,
        Outcome::Redundant => true,
        Outcome::Aborted => true,
        Outcome::Unasked => false,
    }
}

/// Those of which a line says redundant or aborted, in order.
pub(crate) fn left_of(
    alloc: Global,
    faults: &FaultSet,
    lines: &FaultLines,
) -> Result<Vec<Fault>, AllocError>
    requires few { length faults.now < 2 ^ 32 }
    requires size { length lines.now ≡ length faults.now }
    ensures { IfOk result (λ v. v.items ≡ slow_left_of faults.now lines.now) }
{
    let mut left = Vec::new(alloc);
    for place in 0..faults.len() {
        if has_evidence(lines.get(place as usize).outcome) {
            let Fault { line, value } = faults.fault(place);
            left.push(Fault { line, value })?;
        }
    }
    Ok(left)
}
