//! What signals may have, with a trail by which it is taken back.
ghost use Rattle.std.specs.Prelude.{◌≡◌, ◌<◌, ◌≤◌, ◌↔◌, [], drop, length, slice_index_or, take, IfOk, IsTrue, OnErr, OnOk};
ghost use Rattle.std.specs.List.{All};
ghost use Rattle.refutation_check.specs.declared.sets.Change.{Change as ChangeOf};
ghost use Rattle.netlist.specs.Conditions.{IsSound};
ghost use Rattle.netlist.specs.Lines.{IsLineOf};
ghost use Rattle.statement.specs.Netlists.{signals};
ghost use Rattle.refutation.specs.Refutations.{IsNoWay, narrowed};
ghost use Rattle.refutation_check.specs.inner.Sweeps.{IsRestricted, IsTouched};
ghost use Rattle.refutation_check.specs.inner.Trails.{Grows, Trailed, put, undone};

use crate::images::told_at;
use crate::marks::clear;
use crate::pair_sets::is_within;
use crate::ways::is_no_way;
use netlist::{Fault, Netlist, SignalId};
use refutation::{Literal, Pairs};
use std::alloc::{AllocError, Global};
use std::marker::Model;

/// A signal, and what it might have.
#[derive(Clone, Copy)]
pub(crate) struct Change {
    pub signal: SignalId,
    pub before: Pairs,
}

/// What each signal may have, and what it might have before; and room for marks along open ways, clear between looks.
#[derive(Drop)]
pub(crate) struct Sets {
    told: Vec<Pairs>,
    trail: Vec<Change>,
    marks: Vec<bool>,
    list: Vec<SignalId>,
}

impl Model for Sets {
    ghost use Rattle.std.specs.Prelude.{◌≡◌, ◌<◌, length};
    ghost use Rattle.std.specs.List.{All};
    ghost use Rattle.refutation_check.specs.declared.sets.Change.{Change};
    ghost use Rattle.refutation_check.specs.inner.Marks.{IsClear, marked};
    ghost use Rattle.refutation_check.specs.inner.Trails.{Trailed};

    ghost Value = { Trailed };

    ghost view = { λ s. record { told = s.told.items; trail = s.trail.items } };

    ghost invariant = { λ s. All (λ (c : Change). c.signal < length s.told.items) s.trail.items × (length s.marks.items ≡ length s.told.items) × IsClear (marked s.marks.items s.list.items) };
}

/// Takes back the changes from a place of the trail on, the last one first.
fn take_back(told: &mut Vec<Pairs>, trail: &mut Vec<Change>, depth: usize)
    requires depth { depth ≤ length trail.old.items }
    requires within { All (λ (c : ChangeOf). c.signal < length told.old.items) trail.old.items }
    ensures told { told.new.items ≡ undone (drop depth trail.old.items) told.old.items }
    ensures trail { trail.new.items ≡ take depth trail.old.items }
    ensures size { length told.new.items ≡ length told.old.items }
{
    for k in (depth..trail.len()).rev() {
        let change = trail[k];
        told[change.signal.index()] = change.before;
    }
    trail.truncate(depth);
}

impl Sets {
    /// With an empty trail.
    pub(crate) fn new(alloc: Global, told: Vec<Pairs>) -> Result<Sets, AllocError>
        ensures { IfOk result (λ s. s ≡ record { told = told.items; trail = [] }) }
    {
        let marks = vec![in alloc; false; told.len()]?;
        Ok(Sets {
            told,
            trail: Vec::new(alloc),
            marks,
            list: Vec::new(alloc),
        })
    }

    pub(crate) fn told(&self) -> &[Pairs]
        ensures { result.now ≡ self.now.told }
    {
        &self.told
    }

    pub(crate) fn depth(&self) -> usize
        ensures { result ≡ length self.now.trail }
    {
        self.trail.len()
    }

    /// The signal may have these pairs alone.
    pub(crate) fn put(&mut self, id: SignalId, set: Pairs) -> Result<(), AllocError>
        requires { id < length self.old.told }
        ensures ok { OnOk result (self.new ≡ put self.old id set) }
        ensures err { OnErr result (self.new ≡ self.old) }
    {
        let before = self.told[id.index()];
        self.trail.push(Change { signal: id, before })?;
        self.told[id.index()] = set;
        Ok(())
    }

    /// The literal is so.
    pub(crate) fn narrow(&mut self, literal: &Literal) -> Result<(), AllocError>
        requires { literal.now.signal < length self.old.told }
        ensures told { OnOk result (self.new.told ≡ narrowed self.old.told literal.now) }
        ensures grows { Grows self.old self.new }
        ensures touched { OnOk result (IsTouched self.new (length self.old.trail) literal.now.signal) }
    {
        let own = told_at(self.told(), literal.signal);
        self.put(literal.signal, own.meet(literal.pairs))
    }

    /// The signal may have these pairs alone of those that it may have. Where it has no other nothing is noted.
    pub(crate) fn restrict(&mut self, id: SignalId, set: Pairs) -> Result<(), AllocError>
        requires { id < length self.old.told }
        ensures grows { Grows self.old self.new }
        ensures so { OnOk result (IsRestricted self.old id set self.new) }
    {
        let own = told_at(self.told(), id);
        if is_within(own, set) {
            return Ok(());
        }
        self.put(id, own.meet(set))
    }

    /// The signal has what it has, and is on the trail.
    pub(crate) fn touch(&mut self, id: SignalId) -> Result<(), AllocError>
        requires { id < length self.old.told }
        ensures grows { Grows self.old self.new }
        ensures told { self.new.told ≡ self.old.told }
        ensures touched { OnOk result (IsTouched self.new (length self.old.trail) id) }
    {
        let own = told_at(self.told(), id);
        self.put(id, own)
    }

    /// The signal at a place of the trail.
    pub(crate) fn changed(&self, place: usize) -> SignalId
        requires { place < length self.now.trail }
        ensures is { (c : ChangeOf) → slice_index_or self.now.trail place c ≡ c → result ≡ c.signal }
        ensures within { result < length self.now.told }
    {
        self.trail[place].signal
    }

    /// What was when the trail was so long.
    pub(crate) fn undo(&mut self, depth: usize)
        requires { depth ≤ length self.old.trail }
        ensures { (was : Trailed) → length was.trail ≡ depth → Grows was self.old → self.new ≡ was }
    {
        take_back(&mut self.told, &mut self.trail, depth);
    }

    /// Whether no way is open from where the fault enters.
    pub(crate) fn is_no_way(&mut self, netlist: &Netlist, fault: &Fault) -> Result<bool, AllocError>
        requires sound { IsSound netlist.now }
        requires line { IsLineOf netlist.now fault.now.line }
        requires size { length self.old.told ≡ length (signals netlist.now) }
        ensures same { self.new ≡ self.old }
        ensures so { IfOk result (λ b. IsTrue b ↔ IsNoWay netlist.now fault.now self.old.told) }
    {
        let answer = is_no_way(netlist, fault, &self.told, &mut self.marks, &mut self.list);
        clear(&mut self.marks, &mut self.list);
        answer
    }
}
