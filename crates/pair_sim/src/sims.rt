//! The simulation of the good and the faulty netlist under held inputs and a path of decisions.
ghost use Rattle.std.specs.Prelude.{◌≡◌, ◌<◌, [], length, map, IfOk};
ghost use Rattle.std.specs.List.{Contains};
ghost use Rattle.netlist.specs.Holds.{AreHoldsOf};
ghost use Rattle.netlist.specs.Conditions.{IsSound};
ghost use Rattle.netlist.specs.Lines.{IsLineOf};
ghost use Rattle.statement.specs.Netlists.{signals};
ghost use Rattle.pair_sim.specs.Rooms.{IsReusableLabelRoom};
ghost use Rattle.pair_sim.specs.Sims.{sim, assigned, backtracked, HasGood, HasOwn, HasFaulty, MayDiffer, HasLabel, IsNotBlocked, IsState, IsFree, HasContradiction, AreChangedSignals};

use crate::levels::{Level, is_contradicted};
use crate::points::state_of;
use crate::reach::{Reach, state_in_view};
use crate::rooms::SimRoom;
use crate::states::State;
use crate::steps::{note, relabel, replace_fault, take_back};
use events::Events;
use netlist::{Core, Fault, Holds, NoMemory, SignalId, Tri};
use std::alloc::{AllocError, Global};
use std::marker::Model;
use tri::{Label, Labelling, label_all};

/// Labels of a path of decisions, to which one may be added and from which the last may be taken.
#[derive(Drop)]
pub struct PairSim<'a> {
    fault: Fault,
    holds: &'a Holds,
    labelling: Labelling,
    events: Events<'a, Label>,
    levels: Vec<Level>,
    names: Vec<SignalId>,
    reach: Reach,
}

impl<'a> Model for PairSim<'a> {
    ghost use Rattle.pair_sim.specs.Sims.{Sim};

    ghost Value = { Sim };

    ghost use Rattle.std.specs.Prelude.{reverse, vec_capacity};
    ghost use Rattle.pair_sim.specs.Sims.{sim};
    ghost use Rattle.pair_sim.specs.inner.Levels.{path_of};
    ghost use Rattle.pair_sim.specs.inner.Stored.{IsStored};
    ghost use Rattle.pair_sim.specs.inner.Reach.{IsReach};

    ghost view = { λ a. sim a.events.netlist a.fault a.holds.now (path_of (reverse a.levels.items)) };

    ghost invariant = { λ a. IsStored a.fault a.holds.now a.labelling.fault a.labelling.decided.items a.levels.items a.names.items a.events (vec_capacity a.levels) (vec_capacity a.names)
        × IsReach a.fault a.events.netlist a.holds.now a.reach.points.seen.items a.reach.points.first.items a.reach.points.numbers.items a.reach.known a.reach.signals.items (vec_capacity a.reach.signals) };
}

/// The simulation without a decision.
fn started<'a>(
    alloc: Global,
    core: &'a Core,
    fault: &Fault,
    holds: &'a Holds,
) -> Result<PairSim<'a>, AllocError>
    requires { AreHoldsOf core.now holds.now }
    ensures { IfOk result (λ s. s ≡ sim core.now fault.now holds.now []) }
{
    let netlist = core.netlist();
    netlist.sound();
    let count = netlist.inputs().len() + netlist.definitions().len();
    let labelling = Labelling::new(alloc, core, Some(*fault))?;
    let values = label_all(alloc, core, &labelling, holds)?;
    let events = Events::new(alloc, core, values, 4 * count)?;
    let levels = Vec::with_capacity(alloc, count)?;
    let names = Vec::with_capacity(alloc, 5 * count)?;
    let reach = Reach::new(alloc, core)?;
    Ok(PairSim {
        fault: *fault,
        holds,
        labelling,
        events,
        levels,
        names,
        reach,
    })
}

impl<'a> PairSim<'a> {
    /// The simulation without a decision. No other call takes memory.
    pub fn new(
        alloc: Global,
        core: &'a Core,
        fault: Fault,
        holds: &'a Holds,
    ) -> Result<PairSim<'a>, NoMemory>
        requires { AreHoldsOf core.now holds.now }
        ensures { IfOk result (λ s. s ≡ sim core.now fault holds.now []) }
    {
        started(alloc, core, &fault, holds).map_err(|_| NoMemory)
    }

    /// What is kept of it for another fault.
    pub fn into_room(self) -> SimRoom
        requires { IsLineOf self.netlist self.fault.line }
        ensures { IsReusableLabelRoom self.entry.netlist self.entry.holds result }
    {
        let PairSim {
            fault,
            holds: _,
            labelling,
            events,
            levels,
            names,
            reach,
        } = self;
        SimRoom {
            fault,
            labelling,
            events: events.into_room(),
            levels,
            names,
            reach,
        }
    }

    /// The simulation as the room was left.
    fn resumed(room: SimRoom, core: &'a Core, holds: &'a Holds) -> PairSim<'a>
        requires { IsReusableLabelRoom core.now holds.now room }
        ensures netlist { result.netlist ≡ core.now }
        ensures holds { result.holds ≡ holds.now }
        ensures line { IsLineOf core.now result.fault.line }
    {
        let SimRoom {
            fault,
            labelling,
            events,
            levels,
            names,
            reach,
        } = room;
        PairSim {
            fault,
            holds,
            labelling,
            events: Events::in_room(core, events),
            levels,
            names,
            reach,
        }
    }

    /// The simulation of a fault without a decision, in room that was kept: only what this fault and the one before reach is evaluated.
    pub fn in_room(room: SimRoom, core: &'a Core, fault: Fault, holds: &'a Holds) -> PairSim<'a>
        requires serves { IsReusableLabelRoom core.now holds.now room }
        requires line { IsLineOf core.now fault.line }
        requires holds { AreHoldsOf core.now holds.now }
        ensures { result ≡ sim core.now fault holds.now [] }
    {
        let mut labels = PairSim::resumed(room, core, holds);
        labels.aim(fault);
        labels
    }

    fn depth(&self) -> usize
        ensures { result ≡ length self.now.path }
    {
        self.levels.len()
    }

    /// Takes all decisions back.
    pub fn undo_all(&mut self)
        ensures { self.new ≡ sim self.old.netlist self.old.fault self.old.holds [] }
    {
        while self.depth() > 0 {
            self.undo();
        }
    }

    /// Another fault comes in place of this one, where there is no decision.
    fn put(&mut self, fault: Fault)
        requires none { self.old.path ≡ [] }
        requires old_line { IsLineOf self.old.netlist self.old.fault.line }
        requires line { IsLineOf self.old.netlist fault.line }
        requires holds { AreHoldsOf self.old.netlist self.old.holds }
        ensures { self.new ≡ sim self.old.netlist fault self.old.holds [] }
    {
        self.events.core().netlist().sound();
        replace_fault(
            &mut self.labelling,
            &mut self.events,
            &mut self.reach,
            self.holds,
            &self.fault,
            &fault,
        );
        self.names.clear();
        self.fault = fault;
    }

    /// Goes over to another fault, without a decision: only what the two faults reach is evaluated.
    pub fn aim(&mut self, fault: Fault)
        requires old_line { IsLineOf self.old.netlist self.old.fault.line }
        requires line { IsLineOf self.old.netlist fault.line }
        requires holds { AreHoldsOf self.old.netlist self.old.holds }
        ensures { self.new ≡ sim self.old.netlist fault self.old.holds [] }
    {
        self.undo_all();
        self.put(fault);
    }

    #[inline(always)]
    fn label(&self, signal: SignalId) -> Label
        requires { Contains (signals self.now.netlist) signal }
        ensures { HasLabel self.now signal result }
    {
        self.events.core().netlist().sound();
        self.events.values()[signal.index()]
    }

    /// The value without the fault.
    #[inline(always)]
    pub fn good(&self, signal: SignalId) -> Tri
        requires { Contains (signals self.now.netlist) signal }
        ensures { HasGood self.now signal result }
    {
        self.label(signal).good
    }

    /// The value without the fault that the pins tell.
    #[inline(always)]
    pub fn own(&self, signal: SignalId) -> Tri
        requires signal { Contains (signals self.now.netlist) signal }
        requires not_blocked { IsNotBlocked self.now }
        ensures { HasOwn self.now signal result }
    {
        self.label(signal).own
    }

    /// The value with the fault.
    #[inline(always)]
    pub fn faulty(&self, signal: SignalId) -> Tri
        requires signal { Contains (signals self.now.netlist) signal }
        requires not_blocked { IsNotBlocked self.now }
        ensures { HasFaulty self.now signal result }
    {
        self.label(signal).faulty
    }

    /// Whether the two may differ.
    #[inline(always)]
    pub fn may_differ(&self, signal: SignalId) -> bool
        requires signal { Contains (signals self.now.netlist) signal }
        requires not_blocked { IsNotBlocked self.now }
        ensures { MayDiffer self.now signal result }
    {
        self.label(signal).may_differ
    }

    /// One decision more: what it reaches is evaluated.
    pub fn assign(&mut self, signal: SignalId, bit: bool)
        requires { IsFree self.old signal }
        ensures { self.new ≡ assigned self.old signal bit }
    {
        self.events.core().netlist().sound();
        let mark = self.events.mark();
        let was = is_contradicted(&self.levels);
        relabel(&mut self.labelling, &mut self.events, signal, Some(bit));
        let contradicted = note(
            was,
            &self.labelling,
            &mut self.events,
            &mut self.names,
            mark,
        );
        let level = Level {
            signal,
            bit,
            mark,
            contradicted,
        };
        if self.levels.push(level).is_err() {
            unreachable!();
        }
    }

    /// Takes the last decision back.
    pub fn undo(&mut self)
        requires { 0 < length self.old.path }
        ensures { self.new ≡ backtracked self.old }
    {
        self.events.core().netlist().sound();
        let Some(level) = self.levels.pop() else {
            unreachable!()
        };
        take_back(
            &mut self.labelling,
            &mut self.events,
            &mut self.names,
            &level,
        );
    }

    /// Where the path stands.
    pub fn state(&self) -> State
        ensures { IsState self.now result }
    {
        let netlist = self.events.core().netlist();
        netlist.sound();
        let contradicted = is_contradicted(&self.levels);
        if self.reach.known && !contradicted {
            return state_in_view(netlist, &self.reach, self.events.values());
        }
        state_of(
            netlist,
            &self.labelling.fault,
            self.events.values(),
            contradicted,
        )
    }

    /// The signals whose labels aren't those of the path without decisions.
    pub fn trail(&self) -> &[SignalId]
        ensures { ¬ HasContradiction self.now → AreChangedSignals self.now result.now }
    {
        self.events.core().netlist().sound();
        &self.names
    }
}
