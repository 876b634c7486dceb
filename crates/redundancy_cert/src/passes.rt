//! The labels under a fault and decisions, as they stand: after a change of one decision what it reaches is evaluated, and the counts follow.
ghost use Rattle.std.specs.Prelude.{◌≡◌, ◌<◌, [], None, Some, length, slice_index_or, slice_set, IfOk};
ghost use Rattle.std.specs.Bool.{MatchBool};
ghost use Rattle.std.specs.List.{Contains};
ghost use Rattle.statement.specs.declared.lines.Fault.{Fault as FaultOf};
ghost use Rattle.netlist.specs.Holds.{AreHoldsOf};
ghost use Rattle.netlist.specs.Lines.{IsLineOf, IsFaultOf};
ghost use Rattle.statement.specs.Netlists.{signals};
ghost use Rattle.tri.specs.Labels.{held_value, source_label, IsUnobserved};
ghost use Rattle.tri.specs.Labelling.{decided_in};
ghost use Rattle.tri.specs.Paths.{Path, decisions, IsClosedPath, IsUnknown};
ghost use Rattle.redundancy_cert.specs.inner.Tallies.{count_pairs, shows, contradicts};
ghost use Rattle.redundancy_cert.specs.inner.Passing.{AreStanding, IsResettled, IsStart, no_label};
ghost use Rattle.netlist.specs.Settled.{at};
ghost use Rattle.label_events.specs.Lines.{AgreeOnOtherLines};

use crate::observed::observed_marks;
use crate::tallies::{LabelTally, contradicts, counted, recount};
use events::Events;
use label_events::{LabelRule, LinePlace, line_place};
use netlist::{Core, Fault, Holds, Line, SignalId, Tri};
use std::alloc::{AllocError, Global};
use std::marker::Model;
use tri::{Label, Labelling, is_known_as, label_all};

/// The labels of all signals as they stand.
#[derive(Drop)]
pub(crate) struct Pass<'a> {
    holds: &'a Holds,
    labelling: Labelling,
    events: Events<'a, Label>,
    observed: Vec<bool>,
    counts: LabelTally,
}

impl<'a> Model for Pass<'a> {
    ghost use Rattle.redundancy_cert.specs.inner.Passing.{Labelled, IsKept};

    ghost Value = { Labelled };

    ghost view = { λ p. record { netlist = p.events.netlist; holds = p.holds.now; fault = p.labelling.fault; decided = p.labelling.decided.items; values = p.events.values } };

    ghost invariant = { λ p. IsKept (record { netlist = p.events.netlist; holds = p.holds.now; fault = p.labelling.fault; decided = p.labelling.decided.items; values = p.events.values })
        p.observed.items p.counts.differing p.counts.contradicted p.events.trail };
}

/// What is driven onto an input, of which there are so many, or onto a cell.
fn driven_onto(labelling: &Labelling, count: usize, id: SignalId, holds: &Holds) -> Label
    requires { count ≡ length holds.now }
    ensures { result ≡ source_label (decided_in labelling.now.decided.items) id (held_value (slice_index_or holds.now id None)) }
{
    if id.index() < count {
        labelling.input(id, holds)
    } else {
        labelling.source(id, Tri::X)
    }
}

/// The rule, or what is driven, has changed at one signal: the labels settle, and the counts follow.
fn resettle(
    events: &mut Events<Label>,
    labelling: &Labelling,
    id: SignalId,
    observed: &[bool],
    counts: LabelTally,
    holds: &Holds,
) -> LabelTally
    requires within { id < length (signals events.old.netlist) }
    requires trail { events.old.trail ≡ [] }
    requires observed { length observed.now ≡ length (signals events.old.netlist) }
    requires decided { length labelling.now.decided.items ≡ length (signals events.old.netlist) }
    requires holds { AreHoldsOf events.old.netlist holds.now }
    requires differing { counts.differing ≡ count_pairs shows observed.now events.old.values }
    requires contradicted { counts.contradicted ≡ count_pairs contradicts labelling.now.decided.items events.old.values }
    ensures settled { IsResettled labelling.now.fault (decided_in labelling.now.decided.items) events.old.netlist holds.now id events.old.values events.new.values }
    ensures same { events.new ≡ record events.old { values = events.new.values } }
    ensures differing { result.differing ≡ count_pairs shows observed.now events.new.values }
    ensures contradicted { result.contradicted ≡ count_pairs contradicts labelling.now.decided.items events.new.values }
{
    let netlist = events.core().netlist();
    netlist.sound();
    let driven = driven_onto(labelling, netlist.inputs().len(), id, holds);
    let rule = LabelRule { labelling };
    events.change(&rule, id, driven);
    let counts = recount(
        observed,
        &labelling.decided,
        events.values(),
        events.trail(),
        counts,
    );
    events.forget();
    counts
}

impl<'a> Pass<'a> {
    /// Without a fault, and without a decision.
    pub(crate) fn new(
        alloc: Global,
        core: &'a Core,
        holds: &'a Holds,
    ) -> Result<Pass<'a>, AllocError>
        requires { AreHoldsOf core.now holds.now }
        ensures { IfOk result (λ p. IsStart core.now holds.now p) }
    {
        core.netlist().sound();
        let labelling = Labelling::new(alloc, core, None)?;
        let values = label_all(alloc, core, &labelling, holds)?;
        let observed = observed_marks(alloc, core)?;
        let events = Events::new(alloc, core, values, 0)?;
        Ok(Pass {
            holds,
            labelling,
            events,
            observed,
            counts: LabelTally {
                differing: 0,
                contradicted: 0,
            },
        })
    }

    /// A call that does nothing: it tells its caller what the type keeps.
    pub(crate) fn standing(&self)
        ensures { AreStanding self.now }
    {
        let _ = &self.labelling;
    }

    pub(crate) fn core(&self) -> &'a Core
        ensures { result.now ≡ self.now.netlist }
    {
        self.events.core()
    }

    /// Decides a signal, or takes its decision back.
    pub(crate) fn decide(&mut self, id: SignalId, decision: Option<bool>)
        requires { id < length (signals self.old.netlist) }
        ensures { self.new ≡ record self.old { decided = slice_set self.old.decided id decision; values = self.new.values } }
    {
        self.events.core().netlist().sound();
        let x = id.index();
        let label = self.events.values()[x];
        let before = contradicts(self.labelling.decided[x], label);
        let after = contradicts(decision, label);
        self.counts.contradicted = counted(self.counts.contradicted, before, after);
        self.labelling.decided[x] = decision;
        self.counts = resettle(
            &mut self.events,
            &self.labelling,
            id,
            &self.observed,
            self.counts,
            self.holds,
        );
    }

    /// A line is stuck that wasn't, or no longer: the labels settle where it enters.
    fn turn(&mut self, line: &Line, fault: Option<Fault>)
        requires line { IsLineOf self.old.netlist line.now }
        requires same { AgreeOnOtherLines line.now self.old.fault fault }
        ensures { self.new ≡ record self.old { fault = fault; values = self.new.values } }
    {
        self.events.core().netlist().sound();
        let place = line_place(self.events.core(), line);
        self.labelling.fault = fault;
        if let LinePlace::Signal(id) = place {
            self.counts = resettle(
                &mut self.events,
                &self.labelling,
                id,
                &self.observed,
                self.counts,
                self.holds,
            );
        }
    }

    /// Puts the fault on.
    pub(crate) fn stick(&mut self, fault: &Fault)
        requires line { IsLineOf self.old.netlist fault.now.line }
        requires none { self.old.fault ≡ None }
        ensures { self.new ≡ record self.old { fault = Some fault.now; values = self.new.values } }
    {
        self.turn(&fault.line, Some(*fault));
    }

    /// Takes the fault off.
    pub(crate) fn free(&mut self, fault: &Fault)
        requires line { IsLineOf self.old.netlist fault.now.line }
        requires stuck { self.old.fault ≡ Some fault.now }
        ensures { self.new ≡ record self.old { fault = None; values = self.new.values } }
    {
        self.turn(&fault.line, None);
    }

    /// Whether an observed point may differ.
    fn is_observed(&self, fault: &Fault) -> bool
        requires line { IsLineOf self.now.netlist fault.now.line }
        requires stuck { self.now.fault ≡ Some fault.now }
        ensures { (path : Path) → decided_in self.now.decided ≡ decisions path → MatchBool result (¬ IsUnobserved fault.now (decisions path) self.now.netlist (at self.now.values no_label)) (IsUnobserved fault.now (decisions path) self.now.netlist (at self.now.values no_label)) }
    {
        let core = self.core();
        core.netlist().sound();
        match line_place(core, &fault.line) {
            LinePlace::Signal(_) => self.counts.differing > 0,
            LinePlace::Point(x) => !is_known_as(fault.value, self.events.values()[x.index()].good),
        }
    }

    /// Whether no pattern that agrees with the decisions tells the fault: a decided bit is contradicted, or nothing observed may differ.
    pub(crate) fn is_closed(&self, fault: &Fault) -> bool
        requires line { IsLineOf self.now.netlist fault.now.line }
        requires stuck { self.now.fault ≡ Some fault.now }
        ensures { (path : Path) → decided_in self.now.decided ≡ decisions path
            → MatchBool result (IsClosedPath fault.now self.now.netlist self.now.holds path) (¬ IsClosedPath fault.now self.now.netlist self.now.holds path) }
    {
        self.core().netlist().sound();
        self.counts.contradicted > 0 || !self.is_observed(fault)
    }

    /// Whether the signal's value without the fault isn't known.
    pub(crate) fn is_unknown(&self, x: SignalId) -> bool
        requires { Contains (signals self.now.netlist) x }
        ensures { (f : FaultOf) (path : Path) → self.now.fault ≡ Some f → decided_in self.now.decided ≡ decisions path
            → MatchBool result (IsUnknown f self.now.netlist self.now.holds path x) (¬ IsUnknown f self.now.netlist self.now.holds path x) }
    {
        self.core().netlist().sound();
        matches!(self.events.values()[x.index()].good, Tri::X)
    }
}
