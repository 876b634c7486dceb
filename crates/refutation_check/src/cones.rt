//! What a fault reaches.
ghost use Rattle.std.specs.Prelude.{◌≡◌, ◌<◌, ℕ, Some, length, MatchOption, OnOk, IsTrue};
ghost use Rattle.statement.specs.declared.lines.Line.TheVariants.{Pin};
ghost use Rattle.netlist.specs.Conditions.{IsSound};
ghost use Rattle.netlist.specs.Lines.{IsLineOf};
ghost use Rattle.netlist.specs.Netlist.{IsGateAt, Reads};
ghost use Rattle.statement.specs.Netlists.{signals};
ghost use Rattle.refutation.specs.Cones.{Enters, IsCone};
ghost use Rattle.refutation_check.specs.inner.Marks.{AreListed, ArePassed, AreReachedFrom, IsClear, IsDefinedPin, ReadersOf, Spreads, is_marked, marked};

use crate::marks::mark;
use netlist::{Line, Netlist, SignalId};
use std::alloc::AllocError;

/// The gate of which the line is a pin.
pub(crate) fn gate_of(netlist: &Netlist, line: &Line) -> Option<SignalId>
    requires sound { IsSound netlist.now }
    requires defined { IsDefinedPin netlist.now line.now }
    ensures { MatchOption result ((z k : ℕ) → line.now ≡ Pin z k → ¬ IsGateAt netlist.now z) (λ z. IsGateAt netlist.now z × ((k : ℕ) × (line.now ≡ Pin z k))) }
{
    let Line::Pin(z, _) = line else {
        return None;
    };
    if netlist.definition(*z).kind().is_flip_flop() {
        return None;
    }
    Some(*z)
}

/// Where a fault on the line enters.
pub(crate) fn entry(netlist: &Netlist, line: &Line) -> Option<SignalId>
    requires sound { IsSound netlist.now }
    requires line { IsLineOf netlist.now line.now }
    ensures { MatchOption result ((x : ℕ) → ¬ Enters netlist.now line.now x) (λ y. Enters netlist.now line.now y × (y < length (signals netlist.now))) }
{
    match line {
        Line::Stem(x) => Some(*x),
        Line::Out(_) => None,
        Line::Pin(_, _) => gate_of(netlist, line),
    }
}

/// Marks the gates that read a signal.
fn mark_readers(
    netlist: &Netlist,
    id: SignalId,
    marks: &mut Vec<bool>,
    list: &mut Vec<SignalId>,
) -> Result<(), AllocError>
    requires sound { IsSound netlist.now }
    requires within { id < length (signals netlist.now) }
    requires size { length marks.old.items ≡ length (signals netlist.now) }
    ensures passed { OnOk result ((z : ℕ) → Reads netlist.now z id → IsTrue (is_marked marks.new.items z)) }
    ensures spreads { Spreads (ReadersOf netlist.now id) (marked marks.old.items list.old.items) (marked marks.new.items list.new.items) }
{
    let lines = netlist.readers(id);
    for k in 0..lines.len() {
        if let Some(gate) = gate_of(netlist, &lines[k]) {
            mark(marks, list, gate)?;
        }
    }
    Ok(())
}

/// Marks what is reached from the marked signals.
fn spread(
    netlist: &Netlist,
    marks: &mut Vec<bool>,
    list: &mut Vec<SignalId>,
) -> Result<(), AllocError>
    requires sound { IsSound netlist.now }
    requires size { length marks.old.items ≡ length (signals netlist.now) }
    requires listed { AreListed (marked marks.old.items list.old.items) }
    ensures size { length marks.new.items ≡ length marks.old.items }
    ensures listed { AreListed (marked marks.new.items list.new.items) }
    ensures kept { (x : ℕ) → IsTrue (is_marked marks.old.items x) → IsTrue (is_marked marks.new.items x) }
    ensures least { AreReachedFrom netlist.now (marked marks.old.items list.old.items) (marked marks.new.items list.new.items) }
    ensures passed { OnOk result (ArePassed netlist.now (marked marks.new.items list.new.items) (length list.new.items)) }
{
    let mut next = 0;
    while next < list.len() {
        let id = list[next];
        mark_readers(netlist, id, marks, list)?;
        next += 1;
    }
    Ok(())
}

/// Marks what a fault on the line reaches.
pub(crate) fn reach(
    netlist: &Netlist,
    line: &Line,
    marks: &mut Vec<bool>,
    list: &mut Vec<SignalId>,
) -> Result<(), AllocError>
    requires sound { IsSound netlist.now }
    requires line { IsLineOf netlist.now line.now }
    requires size { length marks.old.items ≡ length (signals netlist.now) }
    requires clear { IsClear (marked marks.old.items list.old.items) }
    ensures cone { OnOk result (IsCone netlist.now line.now (is_marked marks.new.items)) }
    ensures listed { AreListed (marked marks.new.items list.new.items) }
    ensures size { length marks.new.items ≡ length marks.old.items }
{
    if let Some(id) = entry(netlist, line) {
        mark(marks, list, id)?;
    }
    spread(netlist, marks, list)
}
