//! Whether a way is open from a fault to an observed point: along signals that may differ.
ghost use Rattle.std.specs.Prelude.{◌≡◌, ◌<◌, ◌↔◌, length, IfOk, IsTrue, OnOk};
ghost use Rattle.std.specs.Bool.{MatchBool};
ghost use Rattle.netlist.specs.Conditions.{IsSound};
ghost use Rattle.netlist.specs.Lines.{IsLineOf};
ghost use Rattle.statement.specs.Netlists.{signals};
ghost use Rattle.refutation.specs.Refutations.{IsNoWay, may_differ};
ghost use Rattle.refutation_check.specs.inner.Marks.{AreListed, IsClear, Spreads, is_marked, marked};
ghost use Rattle.refutation_check.specs.inner.Ways.{IsDiffering, IsObserved, IsPassed, IsWayOpen, IsWayShut, PassedBy};

use crate::cones::{entry, gate_of};
use crate::images::told_at;
use crate::marks::mark;
use crate::pair_sets::may_differ;
use netlist::{Fault, Netlist, SignalId};
use refutation::Pairs;
use std::alloc::AllocError;

/// Marks a signal, if it may differ.
fn mark_differing(
    told: &[Pairs],
    marks: &mut Vec<bool>,
    list: &mut Vec<SignalId>,
    id: SignalId,
) -> Result<(), AllocError>
    requires told { id < length told.now }
    requires within { id < length marks.old.items }
    ensures here { OnOk result (IsTrue (may_differ told.now id) → IsTrue (is_marked marks.new.items id)) }
    ensures spreads { Spreads (IsDiffering told.now id) (marked marks.old.items list.old.items) (marked marks.new.items list.new.items) }
{
    if !may_differ(told_at(told, id)) {
        return Ok(());
    }
    mark(marks, list, id)
}

/// Marks the gates that read a signal and may differ, unless it is observed; whether it isn't.
fn pass(
    netlist: &Netlist,
    told: &[Pairs],
    id: SignalId,
    marks: &mut Vec<bool>,
    list: &mut Vec<SignalId>,
) -> Result<bool, AllocError>
    requires sound { IsSound netlist.now }
    requires within { id < length (signals netlist.now) }
    requires told { length told.now ≡ length (signals netlist.now) }
    requires size { length marks.old.items ≡ length (signals netlist.now) }
    ensures spreads { Spreads (PassedBy netlist.now told.now id) (marked marks.old.items list.old.items) (marked marks.new.items list.new.items) }
    ensures so { IfOk result (λ b. MatchBool b (IsPassed netlist.now told.now (marked marks.new.items list.new.items) id) (IsObserved netlist.now id)) }
{
    let lines = netlist.readers(id);
    for k in 0..lines.len() {
        let Some(gate) = gate_of(netlist, &lines[k]) else {
            return Ok(false);
        };
        mark_differing(told, marks, list, gate)?;
    }
    Ok(true)
}

/// Marks what ways reach from the marked signals; whether none of it is observed.
fn pass_all(
    netlist: &Netlist,
    told: &[Pairs],
    marks: &mut Vec<bool>,
    list: &mut Vec<SignalId>,
) -> Result<bool, AllocError>
    requires sound { IsSound netlist.now }
    requires told { length told.now ≡ length (signals netlist.now) }
    requires size { length marks.old.items ≡ length (signals netlist.now) }
    requires listed { AreListed (marked marks.old.items list.old.items) }
    ensures size { length marks.new.items ≡ length marks.old.items }
    ensures listed { AreListed (marked marks.new.items list.new.items) }
    ensures so { IfOk result (λ b. MatchBool b
        (IsWayShut netlist.now told.now (marked marks.old.items list.old.items) (marked marks.new.items list.new.items))
        (IsWayOpen netlist.now told.now (marked marks.old.items list.old.items))) }
{
    let mut next = 0;
    while next < list.len() {
        let id = list[next];
        let passed = pass(netlist, told, id, marks, list)?;
        if !passed {
            return Ok(false);
        }
        next += 1;
    }
    Ok(true)
}

/// Whether no way is open from where the fault enters.
pub(crate) fn is_no_way(
    netlist: &Netlist,
    fault: &Fault,
    told: &[Pairs],
    marks: &mut Vec<bool>,
    list: &mut Vec<SignalId>,
) -> Result<bool, AllocError>
    requires sound { IsSound netlist.now }
    requires line { IsLineOf netlist.now fault.now.line }
    requires told { length told.now ≡ length (signals netlist.now) }
    requires size { length marks.old.items ≡ length (signals netlist.now) }
    requires clear { IsClear (marked marks.old.items list.old.items) }
    ensures size { length marks.new.items ≡ length marks.old.items }
    ensures listed { AreListed (marked marks.new.items list.new.items) }
    ensures so { IfOk result (λ b. IsTrue b ↔ IsNoWay netlist.now fault.now told.now) }
{
    let Some(id) = entry(netlist, &fault.line) else {
        return Ok(false);
    };
    mark_differing(told, marks, list, id)?;
    pass_all(netlist, told, marks, list)
}
