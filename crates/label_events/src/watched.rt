//! What one pin of a gate tells of the gate, while others turn.
ghost use Rattle.std.specs.Prelude.{◌≡◌, IsFalse, IsTrue};
ghost use Rattle.label_events.specs.Watched.{controls, controlled, is_joint, Hides, HidesLabel};

use netlist::{Kind, Tri};
use tri::{Label, is_known_as};

/// Whether a pin with this value alone tells what the gate makes.
pub(crate) fn controls(kind: Kind, value: Tri) -> bool
    ensures { result ≡ controls kind value }
{
    match kind {
        Kind::And | Kind::Nand => is_known_as(false, value),
        Kind::Or | Kind::Nor => is_known_as(true, value),
        _ => false,
    }
}

/// What the gate makes then.
pub(crate) fn controlled(kind: Kind) -> bool
    ensures { result ≡ controlled kind }
{
    matches!(kind, Kind::Nand | Kind::Or)
}

/// Whether an X at any pin is an X to the gate.
fn is_joint(kind: Kind) -> bool
    ensures { result ≡ is_joint kind }
{
    matches!(
        kind,
        Kind::And | Kind::Nand | Kind::Or | Kind::Nor | Kind::Xor | Kind::Xnor
    )
}

/// Whether the gate makes the same while one pin has the first value and others turn from the second to the third.
fn hides(kind: Kind, cover: Tri, before: Tri, after: Tri) -> bool
    ensures { IsTrue result → Hides kind cover before after }
{
    if before == after {
        return true;
    }
    if controls(kind, cover) {
        return true;
    }
    if !is_joint(kind) {
        return false;
    }
    if cover != Tri::X {
        return false;
    }
    if controls(kind, before) {
        return false;
    }
    !controls(kind, after)
}

/// Whether it is the same if one of the pins may differ.
fn hides_difference(cover: bool, before: bool, after: bool) -> bool
    ensures { IsTrue result → IsFalse cover → before ≡ after }
{
    cover || before == after
}

/// The same of labels.
pub(crate) fn hides_label(kind: Kind, cover: Label, before: Label, after: Label) -> bool
    ensures { IsTrue result → HidesLabel kind cover before after }
{
    if !hides_difference(cover.may_differ, before.may_differ, after.may_differ) {
        return false;
    }
    if !hides(kind, cover.good, before.good, after.good) {
        return false;
    }
    hides(kind, cover.faulty, before.faulty, after.faulty)
}
