//! What gates allow of the pairs that signals may have: each gate beside a signal that was changed is looked at, until nothing changes.
//!
//! The trail is the list of work, since each change is noted there. A look at a gate narrows its signal to what its pins make, and then, unless they
//! make nothing else, each pin to the pairs with which the gate isn't blocked. It ends since each change takes a pair. No gate is flagged as waiting, so
//! some looks see nothing new; and each pair of each pin is tried, so that a look is square in the pins of a wide gate. By what the pins before one and
//! those behind it make it would be linear, with the same answers.
//! (Arc consistency: Mackworth, Consistency in networks of relations, 1977.)
ghost use Rattle.std.specs.Prelude.{◌≡◌, ◌<◌, ◌↔◌, length, IfOk, IsTrue, OnOk};
ghost use Rattle.std.specs.Bool.{MatchBool};
ghost use Rattle.netlist.specs.Conditions.{IsSound};
ghost use Rattle.netlist.specs.Netlist.{IsGateAt};
ghost use Rattle.statement.specs.Netlists.{signals};
ghost use Rattle.refutation.specs.Pairs.{has};
ghost use Rattle.refutation.specs.Refutations.{IsBlocked, IsSwept, LeavesNothing, narrowed, told_of};
ghost use Rattle.refutation_check.specs.inner.Marks.{IsDefinedPin};
ghost use Rattle.refutation_check.specs.inner.Sweeps.{AreKept, ArePinsLookedAt, ArePinsOf, AreReadersLooked, IsBeside, IsCalm, IsLooked, IsLookedAround, IsLookedAt, IsMakerLooked, IsReaderLooked, exactly};
ghost use Rattle.refutation_check.specs.inner.Trails.{Grows};

use crate::cones::gate_of;
use crate::gates::is_gate_blocked;
use crate::images::{made, told_at};
use crate::pair_sets::{has_some, is_in, is_within, only};
use crate::sets::Sets;
use netlist::{Fault, Line, Netlist, SignalId};
use refutation::{Literal, Pairs};
use std::alloc::AllocError;

/// Whether the gate isn't blocked where the literal is so.
fn is_open(
    netlist: &Netlist,
    fault: &Fault,
    sets: &mut Sets,
    gate: SignalId,
    literal: &Literal,
) -> Result<bool, AllocError>
    requires sound { IsSound netlist.now }
    requires size { length sets.old.told ≡ length (signals netlist.now) }
    requires within { literal.now.signal < length sets.old.told }
    ensures grows { Grows sets.old sets.new }
    ensures back { OnOk result (sets.new ≡ sets.old) }
    ensures so { IfOk result (λ b. IsTrue b ↔ (¬ IsBlocked netlist.now fault.now (narrowed sets.old.told literal.now) gate)) }
{
    let depth = sets.depth();
    sets.narrow(literal)?;
    let blocked = is_gate_blocked(netlist, fault, sets.told(), gate);
    sets.undo(depth);
    Ok(!blocked)
}

/// Whether the gate keeps the pair of the signal.
fn is_kept(
    netlist: &Netlist,
    fault: &Fault,
    sets: &mut Sets,
    gate: SignalId,
    id: SignalId,
    good: bool,
    faulty: bool,
) -> Result<bool, AllocError>
    requires sound { IsSound netlist.now }
    requires size { length sets.old.told ≡ length (signals netlist.now) }
    requires within { id < length sets.old.told }
    ensures grows { Grows sets.old sets.new }
    ensures back { OnOk result (sets.new ≡ sets.old) }
    ensures so { IfOk result (λ b. IsTrue b ↔ (IsTrue (has (told_of sets.old.told id) (record { good = good; faulty = faulty }))
        × ¬ IsBlocked netlist.now fault.now (narrowed sets.old.told (exactly id (record { good = good; faulty = faulty }))) gate)) }
{
    let own = told_at(sets.told(), id);
    if !is_in(own, good, faulty) {
        return Ok(false);
    }
    let literal = Literal {
        signal: id,
        pairs: only(good, faulty),
    };
    is_open(netlist, fault, sets, gate, &literal)
}

/// The pairs of the signal that the gate keeps.
fn kept_pairs(
    netlist: &Netlist,
    fault: &Fault,
    sets: &mut Sets,
    gate: SignalId,
    id: SignalId,
) -> Result<Pairs, AllocError>
    requires sound { IsSound netlist.now }
    requires size { length sets.old.told ≡ length (signals netlist.now) }
    requires within { id < length sets.old.told }
    ensures grows { Grows sets.old sets.new }
    ensures back { OnOk result (sets.new ≡ sets.old) }
    ensures so { IfOk result (λ s. AreKept netlist.now fault.now sets.old.told gate id s) }
{
    let zero = is_kept(netlist, fault, sets, gate, id, false, false)?;
    let rises = is_kept(netlist, fault, sets, gate, id, false, true)?;
    let falls = is_kept(netlist, fault, sets, gate, id, true, false)?;
    let one = is_kept(netlist, fault, sets, gate, id, true, true)?;
    Ok(Pairs {
        zero,
        rises,
        falls,
        one,
    })
}

/// Leaves a signal beside the gate the pairs that the gate keeps.
fn look_at(
    netlist: &Netlist,
    fault: &Fault,
    sets: &mut Sets,
    gate: SignalId,
    id: SignalId,
) -> Result<(), AllocError>
    requires sound { IsSound netlist.now }
    requires size { length sets.old.told ≡ length (signals netlist.now) }
    requires within { id < length sets.old.told }
    requires gate { IsGateAt netlist.now gate }
    requires beside { IsBeside netlist.now gate id }
    ensures grows { Grows sets.old sets.new }
    ensures so { OnOk result (IsLookedAt netlist.now fault.now sets.old gate id sets.new) }
{
    let kept = kept_pairs(netlist, fault, sets, gate, id)?;
    sets.restrict(id, kept)
}

/// Leaves each pin of the gate the pairs that the gate keeps.
fn look_at_pins(
    netlist: &Netlist,
    fault: &Fault,
    sets: &mut Sets,
    gate: SignalId,
    pins: &[SignalId],
) -> Result<(), AllocError>
    requires sound { IsSound netlist.now }
    requires size { length sets.old.told ≡ length (signals netlist.now) }
    requires pins { ArePinsOf netlist.now gate pins.now }
    ensures grows { Grows sets.old sets.new }
    ensures so { OnOk result (ArePinsLookedAt netlist.now fault.now sets.old gate pins.now sets.new) }
{
    for k in 0..pins.len() {
        look_at(netlist, fault, sets, gate, pins[k])?;
    }
    Ok(())
}

/// Leaves the signals beside the gate the pairs that the gate keeps; whether it makes any.
fn look(
    netlist: &Netlist,
    fault: &Fault,
    sets: &mut Sets,
    gate: SignalId,
) -> Result<bool, AllocError>
    requires sound { IsSound netlist.now }
    requires size { length sets.old.told ≡ length (signals netlist.now) }
    requires gate { IsGateAt netlist.now gate }
    ensures grows { Grows sets.old sets.new }
    ensures so { IfOk result (λ b. MatchBool b (IsLooked netlist.now fault.now sets.old gate sets.new) (LeavesNothing netlist.now fault.now sets.old.told)) }
{
    let definition = netlist.definition(gate);
    let made = made(sets.told(), definition, fault);
    if !has_some(made) {
        return Ok(false);
    }
    let own = told_at(sets.told(), gate);
    sets.restrict(gate, made)?;
    if is_within(made, own) {
        return Ok(true);
    }
    look_at_pins(netlist, fault, sets, gate, definition.pins())?;
    Ok(true)
}

/// Looks at the gate of a reader, if it is one.
fn look_at_reader(
    netlist: &Netlist,
    fault: &Fault,
    sets: &mut Sets,
    line: &Line,
) -> Result<bool, AllocError>
    requires sound { IsSound netlist.now }
    requires size { length sets.old.told ≡ length (signals netlist.now) }
    requires defined { IsDefinedPin netlist.now line.now }
    ensures grows { Grows sets.old sets.new }
    ensures so { IfOk result (λ b. MatchBool b (IsReaderLooked netlist.now fault.now sets.old line.now sets.new) (LeavesNothing netlist.now fault.now sets.old.told)) }
{
    let Some(gate) = gate_of(netlist, line) else {
        return Ok(true);
    };
    look(netlist, fault, sets, gate)
}

/// Looks at the gate of the signal, if it is one.
fn look_at_maker(
    netlist: &Netlist,
    fault: &Fault,
    sets: &mut Sets,
    id: SignalId,
) -> Result<bool, AllocError>
    requires sound { IsSound netlist.now }
    requires size { length sets.old.told ≡ length (signals netlist.now) }
    requires within { id < length sets.old.told }
    ensures grows { Grows sets.old sets.new }
    ensures so { IfOk result (λ b. MatchBool b (IsMakerLooked netlist.now fault.now sets.old id sets.new) (LeavesNothing netlist.now fault.now sets.old.told)) }
{
    let inputs = netlist.inputs().len();
    if id.index() < inputs {
        return Ok(true);
    }
    if netlist.definition(id).kind().is_flip_flop() {
        return Ok(true);
    }
    look(netlist, fault, sets, id)
}

/// Looks at the gates that read the signal.
fn look_at_readers(
    netlist: &Netlist,
    fault: &Fault,
    sets: &mut Sets,
    id: SignalId,
) -> Result<bool, AllocError>
    requires sound { IsSound netlist.now }
    requires size { length sets.old.told ≡ length (signals netlist.now) }
    requires within { id < length sets.old.told }
    ensures grows { Grows sets.old sets.new }
    ensures so { IfOk result (λ b. MatchBool b (AreReadersLooked netlist.now fault.now sets.old id sets.new) (LeavesNothing netlist.now fault.now sets.old.told)) }
{
    let lines = netlist.readers(id);
    for k in 0..lines.len() {
        let some = look_at_reader(netlist, fault, sets, &lines[k])?;
        if !some {
            return Ok(false);
        }
    }
    Ok(true)
}

/// Looks at the gates beside the signal, if it may have a pair; whether something is left.
fn look_around(
    netlist: &Netlist,
    fault: &Fault,
    sets: &mut Sets,
    id: SignalId,
) -> Result<bool, AllocError>
    requires sound { IsSound netlist.now }
    requires size { length sets.old.told ≡ length (signals netlist.now) }
    requires within { id < length sets.old.told }
    ensures grows { Grows sets.old sets.new }
    ensures so { IfOk result (λ b. MatchBool b (IsLookedAround netlist.now fault.now sets.old id sets.new) (LeavesNothing netlist.now fault.now sets.old.told)) }
{
    if !has_some(told_at(sets.told(), id)) {
        return Ok(false);
    }
    let made = look_at_maker(netlist, fault, sets, id)?;
    if !made {
        return Ok(false);
    }
    look_at_readers(netlist, fault, sets, id)
}

/// Leaves the most that the gates allow; whether they allow anything. Beside the signals on the trail before the place nothing has to be looked at.
pub(crate) fn sweep(
    netlist: &Netlist,
    fault: &Fault,
    sets: &mut Sets,
    from: usize,
) -> Result<bool, AllocError>
    requires sound { IsSound netlist.now }
    requires size { length sets.old.told ≡ length (signals netlist.now) }
    requires calm { IsCalm netlist.now fault.now sets.old from }
    ensures grows { Grows sets.old sets.new }
    ensures so { IfOk result (λ b. MatchBool b (IsSwept netlist.now fault.now sets.old.told sets.new.told) (LeavesNothing netlist.now fault.now sets.old.told)) }
{
    let mut next = from;
    while next < sets.depth() {
        let id = sets.changed(next);
        let some = look_around(netlist, fault, sets, id)?;
        if !some {
            return Ok(false);
        }
        next += 1;
    }
    Ok(true)
}

/// Whether the gates allow nothing.
pub(crate) fn leaves_nothing(
    netlist: &Netlist,
    fault: &Fault,
    sets: &mut Sets,
    from: usize,
) -> Result<bool, AllocError>
    requires sound { IsSound netlist.now }
    requires size { length sets.old.told ≡ length (signals netlist.now) }
    requires calm { IsCalm netlist.now fault.now sets.old from }
    ensures grows { Grows sets.old sets.new }
    ensures back { OnOk result (sets.new ≡ sets.old) }
    ensures so { IfOk result (λ b. IsTrue b ↔ LeavesNothing netlist.now fault.now sets.old.told) }
{
    let depth = sets.depth();
    let some = sweep(netlist, fault, sets, from)?;
    sets.undo(depth);
    Ok(!some)
}
