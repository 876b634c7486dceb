//! What a gate makes of the sets of pairs of its pins.
ghost use Rattle.std.specs.Prelude.{◌≡◌, ◌<◌, ◌≤◌, length, map};
ghost use Rattle.std.specs.List.{All};
ghost use Rattle.netlist.specs.Gates.{most_pins};
ghost use Rattle.refutation.specs.Refutations.{told_of};
ghost use Rattle.refutation_check.specs.inner.Images.{begun, ended, joined, made_sets, set_rule};

use crate::pair_sets::{beside, both, either, inverted, odd, stuck};
use netlist::{Definition, Fault, Kind, Line, SignalId};
use refutation::Pairs;

/// What a signal may have.
pub(crate) fn told_at(told: &[Pairs], id: SignalId) -> Pairs
    requires { id < length told.now }
    ensures { result ≡ told_of told.now id }
{
    told[id.index()]
}

/// What a line makes of a set.
pub(crate) fn on_line(fault: &Fault, line: &Line, pairs: Pairs) -> Pairs
    ensures { result ≡ (set_rule fault.now).line line.now pairs }
{
    if fault.line.is(line) {
        stuck(pairs, fault.value)
    } else {
        pairs
    }
}

/// A pin, before those behind it.
fn joined(kind: Kind, pin: Pairs, behind: Pairs) -> Pairs
    ensures { result ≡ joined kind pin behind }
{
    match kind {
        Kind::And | Kind::Nand => both(pin, behind),
        Kind::Or | Kind::Nor => either(pin, behind),
        Kind::Xor | Kind::Xnor => odd(pin, behind),
        Kind::Not | Kind::Buff | Kind::Dff => beside(pin, behind),
        Kind::Const0 | Kind::Const1 => beside(behind, pin),
    }
}

/// No pins.
fn begun(kind: Kind) -> Pairs
    ensures { result ≡ begun kind }
{
    let all = matches!(kind, Kind::And | Kind::Nand);
    Pairs {
        zero: !all,
        rises: false,
        falls: false,
        one: all,
    }
}

/// Some kinds invert.
fn ended(kind: Kind, pairs: Pairs) -> Pairs
    ensures { result ≡ ended kind pairs }
{
    match kind {
        Kind::Nand | Kind::Nor | Kind::Xnor | Kind::Not | Kind::Const1 => inverted(pairs),
        Kind::And | Kind::Or | Kind::Xor | Kind::Buff | Kind::Dff | Kind::Const0 => pairs,
    }
}

/// What the gate makes of the pairs that its pins may have, where the fault is.
pub(crate) fn made(told: &[Pairs], gate: &Definition, fault: &Fault) -> Pairs
    requires below { All (λ x. x < length told.now) gate.now.pins }
    requires few { length gate.now.pins ≤ most_pins }
    ensures { result ≡ made_sets fault.now gate.now (map (told_of told.now) gate.now.pins) }
{
    let id = gate.id();
    let kind = gate.kind();
    let pins = gate.pins();
    let mut pairs = begun(kind);
    for k in (0..pins.len()).rev() {
        let set = told_at(told, pins[k]);
        let pin = on_line(fault, &Line::Pin(id, k as u32), set);
        pairs = joined(kind, pin, pairs);
    }
    on_line(fault, &Line::Stem(id), ended(kind, pairs))
}
