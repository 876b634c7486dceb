//! What signals may have before any step.
ghost use Rattle.std.specs.Prelude.{◌≡◌, ◌<◌, ◌≤◌, length, true, None, IfOk, IsTrue, OnOk, slice_index_or};
ghost use Rattle.std.specs.List.{All};
ghost use Rattle.netlist.specs.Conditions.{IsSound};
ghost use Rattle.netlist.specs.Holds.{AreHoldsOf};
ghost use Rattle.netlist.specs.Lines.{IsLineOf, signal_of};
ghost use Rattle.statement.specs.Netlists.{signals};
ghost use Rattle.refutation.specs.Cones.{IsCone};
ghost use Rattle.refutation.specs.Refutations.{at_stem, carried, excitation, held, may_have, narrowed, start};
ghost use Rattle.refutation_check.specs.inner.Marks.{AreListed, is_marked, marked};
ghost use Rattle.refutation_check.specs.inner.Starting.{AreFixed, IsNoted, IsPlain, idle, reaching};
ghost use Rattle.refutation_check.specs.inner.Sweeps.{AreTouched, IsCalm, IsTouched};
ghost use Rattle.refutation_check.specs.inner.Trails.{Grows};

use crate::pair_sets::is_within;
use crate::sets::Sets;
use netlist::{Core, Fault, Holds, Line, Netlist, SignalId};
use refutation::{Literal, Pairs};
use std::alloc::{AllocError, Global};

/// Of an input that may be held, of which there are so many, or of another signal.
fn held(holds: &Holds, count: usize, id: SignalId) -> Pairs
    requires { count ≡ length holds.now }
    ensures { result ≡ held (slice_index_or holds.now id None) }
{
    if id.index() >= count {
        return Pairs::any();
    }
    match holds.held(id.0) {
        None => Pairs::any(),
        Some(bit) => Pairs::good_is(bit),
    }
}

/// A stuck stem has its bit with the fault.
fn at_stem(fault: &Fault, id: SignalId) -> Pairs
    ensures { result ≡ at_stem fault.now id }
{
    if fault.line.is(&Line::Stem(id)) {
        Pairs::faulty_is(fault.value)
    } else {
        Pairs::any()
    }
}

/// Of a signal that the fault reaches.
fn reached(holds: &Holds, count: usize, fault: &Fault, id: SignalId) -> Pairs
    requires { count ≡ length holds.now }
    ensures { result ≡ may_have holds.now fault.now true id }
{
    at_stem(fault, id).meet(held(holds, count, id))
}

/// What signals may have without a fault.
pub(crate) fn idle(alloc: Global, core: &Core, holds: &Holds) -> Result<Vec<Pairs>, AllocError>
    requires { AreHoldsOf core.now holds.now }
    ensures { IfOk result (λ v. v.items ≡ idle core.now holds.now) }
{
    core.netlist().sound();
    let inputs = core.netlist().inputs().len();
    let count = inputs + core.netlist().definitions().len();
    let mut told = Vec::with_capacity(alloc, count)?;
    for x in 0..count {
        let pairs = Pairs::same().meet(held(holds, inputs, SignalId(x as u32)));
        told.push(pairs)?;
    }
    Ok(told)
}

/// Whether the signal isn't held, and no gate without pins.
fn is_plain(netlist: &Netlist, holds: &Holds, id: SignalId) -> bool
    requires sound { IsSound netlist.now }
    requires holds { AreHoldsOf netlist.now holds.now }
    requires within { id < length (signals netlist.now) }
    ensures { IsTrue result → IsPlain netlist.now holds.now id }
{
    let inputs = netlist.inputs().len();
    if !is_within(Pairs::any(), held(holds, inputs, id)) {
        return false;
    }
    if id.index() < inputs {
        return true;
    }
    !netlist.definition(id).pins().is_empty()
}

/// Takes note of the signal, if it isn't plain.
fn note(
    netlist: &Netlist,
    holds: &Holds,
    list: &mut Vec<SignalId>,
    id: SignalId,
) -> Result<(), AllocError>
    requires sound { IsSound netlist.now }
    requires holds { AreHoldsOf netlist.now holds.now }
    requires within { id < length (signals netlist.now) }
    ensures { OnOk result (IsNoted netlist.now holds.now id list.old.items list.new.items) }
{
    if is_plain(netlist, holds, id) {
        return Ok(());
    }
    list.push(id)?;
    Ok(())
}

/// The held inputs and the gates without pins.
pub(crate) fn fixed(
    alloc: Global,
    netlist: &Netlist,
    holds: &Holds,
) -> Result<Vec<SignalId>, AllocError>
    requires sound { IsSound netlist.now }
    requires holds { AreHoldsOf netlist.now holds.now }
    ensures { IfOk result (λ v. AreFixed netlist.now holds.now v.items) }
{
    let mut list = Vec::new(alloc);
    for x in 0..netlist.inputs().len() + netlist.definitions().len() {
        note(netlist, holds, &mut list, SignalId(x as u32))?;
    }
    Ok(list)
}

/// What is reached may differ.
fn widen(
    netlist: &Netlist,
    holds: &Holds,
    fault: &Fault,
    marks: &[bool],
    list: &[SignalId],
    sets: &mut Sets,
) -> Result<(), AllocError>
    requires sound { IsSound netlist.now }
    requires holds { AreHoldsOf netlist.now holds.now }
    requires size { length marks.now ≡ length (signals netlist.now) }
    requires listed { AreListed (marked marks.now list.now) }
    requires told { sets.old.told ≡ idle netlist.now holds.now }
    ensures grows { Grows sets.old sets.new }
    ensures told { OnOk result (sets.new.told ≡ reaching netlist.now holds.now fault.now marks.now) }
{
    let inputs = netlist.inputs().len();
    for k in 0..list.len() {
        let id = list[k];
        let pairs = reached(holds, inputs, fault, id);
        sets.put(id, pairs)?;
    }
    Ok(())
}

/// The signal that comes onto the line.
fn carried(netlist: &Netlist, line: &Line) -> SignalId
    requires sound { IsSound netlist.now }
    requires line { IsLineOf netlist.now line.now }
    ensures is { result ≡ carried netlist.now line.now }
    ensures within { result < length (signals netlist.now) }
{
    match line {
        Line::Stem(x) => *x,
        Line::Out(x) => *x,
        Line::Pin(z, k) => netlist.definition(*z).pins()[*k as usize],
    }
}

/// The signal that the line is of.
fn signal_of(netlist: &Netlist, line: &Line) -> SignalId
    requires sound { IsSound netlist.now }
    requires line { IsLineOf netlist.now line.now }
    ensures is { result ≡ signal_of line.now }
    ensures within { result < length (signals netlist.now) }
{
    match line {
        Line::Stem(x) => *x,
        Line::Out(x) => *x,
        Line::Pin(z, _) => *z,
    }
}

/// Puts these signals on the trail.
fn touch_all(sets: &mut Sets, list: &[SignalId]) -> Result<(), AllocError>
    requires { All (λ x. x < length sets.old.told) list.now }
    ensures grows { Grows sets.old sets.new }
    ensures told { sets.new.told ≡ sets.old.told }
    ensures touched { OnOk result (AreTouched sets.new (length sets.old.trail) list.now) }
{
    for k in 0..list.len() {
        sets.touch(list[k])?;
    }
    Ok(())
}

/// The fault excites its line; and beside what is put on the trail, and there alone, gates may allow less.
fn excite(
    netlist: &Netlist,
    fault: &Fault,
    fixed: &[SignalId],
    sets: &mut Sets,
) -> Result<(), AllocError>
    requires sound { IsSound netlist.now }
    requires line { IsLineOf netlist.now fault.now.line }
    requires fixed { All (λ x. x < length sets.old.told) fixed.now }
    requires size { length sets.old.told ≡ length (signals netlist.now) }
    ensures grows { Grows sets.old sets.new }
    ensures told { OnOk result (sets.new.told ≡ narrowed sets.old.told (excitation netlist.now fault.now)) }
    ensures excited { OnOk result (IsTouched sets.new (length sets.old.trail) (carried netlist.now fault.now.line)) }
    ensures line { OnOk result (IsTouched sets.new (length sets.old.trail) (signal_of fault.now.line)) }
    ensures fixed { OnOk result (AreTouched sets.new (length sets.old.trail) fixed.now) }
{
    let excitation = Literal {
        signal: carried(netlist, &fault.line),
        pairs: Pairs::good_is(!fault.value),
    };
    sets.narrow(&excitation)?;
    let id = signal_of(netlist, &fault.line);
    sets.touch(id)?;
    touch_all(sets, fixed)
}

/// What each signal may have under a pattern that detects the fault, as far as it is seen at once; and the place of the trail from which on it is to be
/// looked at what gates allow.
pub(crate) fn start(
    netlist: &Netlist,
    holds: &Holds,
    fixed: &[SignalId],
    fault: &Fault,
    marks: &[bool],
    list: &[SignalId],
    sets: &mut Sets,
) -> Result<usize, AllocError>
    requires sound { IsSound netlist.now }
    requires line { IsLineOf netlist.now fault.now.line }
    requires holds { AreHoldsOf netlist.now holds.now }
    requires fixed { AreFixed netlist.now holds.now fixed.now }
    requires size { length marks.now ≡ length (signals netlist.now) }
    requires listed { AreListed (marked marks.now list.now) }
    requires cone { IsCone netlist.now fault.now.line (is_marked marks.now) }
    requires told { sets.old.told ≡ idle netlist.now holds.now }
    ensures grows { Grows sets.old sets.new }
    ensures told { OnOk result (sets.new.told ≡ start netlist.now holds.now fault.now (is_marked marks.now)) }
    ensures from { IfOk result (λ k. k ≤ length sets.new.trail) }
    ensures calm { IfOk result (λ k. IsCalm netlist.now fault.now sets.new k) }
{
    widen(netlist, holds, fault, marks, list, sets)?;
    let from = sets.depth();
    excite(netlist, fault, fixed, sets)?;
    Ok(from)
}
