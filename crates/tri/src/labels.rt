//! Labels: what decisions tell of a signal.
ghost use Rattle.std.specs.Prelude.{◌≡◌, map};
ghost use Rattle.std.specs.List.{list_any};
ghost use Rattle.tri.specs.Gates.{gate_tri};
ghost use Rattle.tri.specs.Labels.{is_known_as, are_known_and_equal, on_line, label_of};

use crate::together::{Together, known};
use netlist::{Fault, Kind, Line, Tri};

/// What decisions tell of a signal.
#[derive(Clone, Copy, PartialEq, Eq)]
pub struct Label {
    /// Without the fault: what the pins tell.
    pub own: Tri,
    /// Without the fault, with the decision.
    pub good: Tri,
    /// With the fault.
    pub faulty: Tri,
    pub may_differ: bool,
}

pub fn is_known_as(bit: bool, value: Tri) -> bool
    ensures { result ≡ is_known_as bit value }
{
    match value {
        Tri::Zero => !bit,
        Tri::One => bit,
        Tri::X => false,
    }
}

fn are_known_and_equal(value: Tri, other: Tri) -> bool
    ensures { result ≡ are_known_and_equal value other }
{
    match value {
        Tri::Zero => matches!(other, Tri::Zero),
        Tri::One => matches!(other, Tri::One),
        Tri::X => false,
    }
}

/// The label of a signal whose stem isn't stuck.
pub fn label_of(decision: Option<bool>, own: Tri, faulty: Tri, differs: bool) -> Label
    ensures { result ≡ label_of decision own faulty differs }
{
    let good = match decision {
        None => own,
        Some(bit) => known(bit),
    };
    let faulty_value = if differs { faulty } else { good };
    Label {
        own,
        good,
        faulty: faulty_value,
        may_differ: differs && !are_known_and_equal(good, faulty),
    }
}

/// The label on a line, where that of its signal is this.
pub fn on_line(fault: &Option<Fault>, line: &Line, label: Label) -> Label
    ensures { result ≡ on_line fault.now line.now label }
{
    match fault {
        None => label,
        Some(fault) => {
            if fault.line.is(line) {
                Label {
                    own: label.own,
                    good: label.good,
                    faulty: known(fault.value),
                    may_differ: !is_known_as(fault.value, label.good),
                }
            } else {
                label
            }
        }
    }
}

/// The label of a gate from those on its pins.
pub fn gate_label(decision: Option<bool>, kind: Kind, pins: &[Label]) -> Label
    ensures { result ≡ label_of decision
        (gate_tri kind (map (λ (l : Label). l.good) pins.now))
        (gate_tri kind (map (λ (l : Label). l.faulty) pins.now))
        (list_any (λ (l : Label). l.may_differ) pins.now) }
{
    let mut good = Together::none();
    let mut faulty = Together::none();
    let mut may_differ = false;
    for k in (0..pins.len()).rev() {
        let label = pins[k];
        good = good.with(label.good);
        faulty = faulty.with(label.faulty);
        may_differ = label.may_differ || may_differ;
    }
    label_of(
        decision,
        good.through(kind),
        faulty.through(kind),
        may_differ,
    )
}
