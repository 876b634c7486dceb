//! The faults whose evidence the certificate has: one for each class of which a line says redundant or aborted.
ghost use Rattle.std.specs.Prelude.{◌≡◌, ◌<◌, ◌^◌, length, IfOk};
ghost use Rattle.run_report.specs.Outcomes.{has_evidence, left_of};
ghost use Rattle.run_report.specs.inner.Marks.{AreMarked, marked};

use fault_collapse::Classes;
use netlist::Fault;
use report::{FaultLines, Outcome};
use std::alloc::{AllocError, Global};

/// Whether a line of this outcome rests on evidence.
fn has_evidence(outcome: Outcome) -> bool
    ensures { result ≡ has_evidence outcome }
{
    match outcome {
        Outcome::Redundant | Outcome::Aborted => true,
        Outcome::Detected(_, _) | Outcome::Unasked => false,
    }
}

/// Marks a class where a line of this outcome rests on evidence.
fn mark(marks: &mut Vec<bool>, class: u32, outcome: Outcome)
    ensures { marks.new.items ≡ marked marks.old.items class (has_evidence outcome) }
{
    if has_evidence(outcome) && (class as usize) < marks.len() {
        marks[class as usize] = true;
    }
}

/// For each class, whether a line rests on evidence of one of its faults.
fn marks_of(alloc: Global, classes: &Classes, lines: &FaultLines) -> Result<Vec<bool>, AllocError>
    requires lines { length lines.now ≡ length classes.now.numbers }
    requires few { length lines.now < 2 ^ 32 }
    ensures { IfOk result (λ marks. AreMarked (length classes.now.representatives) classes.now.numbers lines.now marks.items) }
{
    let mut marks = vec![in alloc; false; classes.count() as usize]?;
    for place in 0..lines.len() {
        mark(
            &mut marks,
            classes.class_of(place as u32),
            lines.get(place).outcome,
        );
    }
    Ok(marks)
}

/// The representatives of the classes of which a line says redundant or aborted, in order.
pub fn left_of(
    alloc: Global,
    classes: &Classes,
    lines: &FaultLines,
) -> Result<Vec<Fault>, AllocError>
    requires lines { length lines.now ≡ length classes.now.numbers }
    requires few { length lines.now < 2 ^ 32 }
    ensures { IfOk result (λ left. left.items ≡ left_of classes.now lines.now) }
{
    let marks = marks_of(alloc, classes, lines)?;
    let mut left = Vec::new(alloc);
    for class in 0..classes.count() {
        if marks[class as usize] {
            let Fault { line, value } = classes.representative(class);
            left.push(Fault { line, value })?;
        }
    }
    Ok(left)
}
