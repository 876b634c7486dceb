//! The suspects: a fault of each class, at its site.
ghost use Rattle.std.specs.Prelude.{◌≡◌, ◌<◌, ◌++◌, ◌∷◌, [], IfOk, OnOk, Some, length, map, slice_get};
ghost use Rattle.std.specs.List.{All};
ghost use Rattle.netlist.specs.Lines.{signal_of};
ghost use Rattle.statement.specs.declared.lines.Fault.{Fault as Stuck};
ghost use Rattle.diagnose.specs.Candidates.{IsScannedDesign};
ghost use Rattle.diagnose.specs.inner.Answers.{at_site};

use crate::designs::ScannedDesign;
use fault_collapse::Classes;
use fault_universe::faults_have_signals;
use netlist::Fault;
use scan_insert::Scanned;
use std::alloc::{AllocError, Global};

/// The representative of a class, at its site.
fn suspect(scanned: &Scanned, classes: &Classes, class: u32) -> Fault
    requires class { class < length classes.now.representatives }
    requires signals { All (λ (f : Stuck). signal_of f.line < length scanned.now.sites) classes.now.representatives }
    ensures { (f : Stuck) → slice_get classes.now.representatives class ≡ Some f → result ≡ at_site scanned.now.sites f }
{
    let Fault { line, value } = classes.representative(class);
    Fault {
        line: scanned.site_of(line),
        value,
    }
}

/// Adds a suspect.
fn push(fault: &Fault, suspects: &mut Vec<Fault>) -> Result<(), AllocError>
    ensures { OnOk result (suspects.new.items ≡ suspects.old.items ++ fault.now ∷ []) }
{
    suspects.extend_from_slice(&[*fault])
}

/// The representatives of all classes, at their sites.
fn all_suspects(
    alloc: Global,
    scanned: &Scanned,
    classes: &Classes,
) -> Result<Vec<Fault>, AllocError>
    requires { All (λ (f : Stuck). signal_of f.line < length scanned.now.sites) classes.now.representatives }
    ensures { IfOk result (λ v. v.items ≡ map (at_site scanned.now.sites) classes.now.representatives) }
{
    let mut suspects = Vec::with_capacity(alloc, classes.count() as usize)?;
    for class in 0..classes.count() {
        push(&suspect(scanned, classes, class), &mut suspects)?;
    }
    Ok(suspects)
}

/// The suspects of a design.
pub(crate) fn suspects_of(
    alloc: Global,
    design: &ScannedDesign<'_>,
) -> Result<Vec<Fault>, AllocError>
    requires { IsScannedDesign design.now.scanned.now design.now.faults.now design.now.classes.now }
    ensures { IfOk result (λ v. v.items ≡ map (at_site design.now.scanned.now.sites) design.now.classes.now.representatives) }
{
    faults_have_signals();
    all_suspects(alloc, design.scanned, design.classes)
}
