//! The D-frontier: gates that an effect has come to and not yet passed. (Roth, Diagnosis of automata failures, 1966.) It is kept along the trail of labels:
//! a decision more has gates come to it and leave it, what came and left is written down, and a decision that is taken back undoes that. Found anew at
//! each turn, from the readers of all signals with an effect, it takes a fifth of a search, and a third where an effect reaches far. Nothing stands on
//! it but the speed of the search.
ghost use Rattle.std.specs.Prelude.{◌≡◌, ⊤};
ghost use Rattle.pair_sim.specs.Sims.{IsNotBlocked};

use crate::paths::Paths;
use decisions::{Case, Effects, Measures, has_effect, may_get_effect, readers, signal_count};
use netlist::{Core, Line, SignalId};
use pair_sim::PairSim;
use std::alloc::{AllocError, Global};
use std::marker::Model;

/// A gate that came, or left.
#[derive(Clone, Copy)]
struct Turned {
    gate: SignalId,
    came: bool,
}

/// How much had come and left before a decision, and how much of the trail had been looked at.
#[derive(Clone, Copy)]
struct Mark {
    turned: usize,
    looked_at: usize,
}

/// The gates of the D-frontier, in no order that tells anything, and how they came there.
#[derive(Drop)]
pub(crate) struct Frontier {
    gates: Vec<SignalId>,
    /// For each signal its place among the gates, from 1; 0 where it is none of them.
    places: Vec<usize>,
    turned: Vec<Turned>,
    /// One for each decision.
    marks: Vec<Mark>,
    looked_at: usize,
}

// Contracts see nothing of it.
impl Model for Frontier {
    ghost Value = { ⊤ };

    ghost view = { λ _. tt };
}

impl Frontier {
    /// With room for a netlist.
    pub(crate) fn of(alloc: Global, core: &Core) -> Result<Frontier, AllocError> {
        Ok(Frontier {
            gates: Vec::new(alloc),
            places: vec![in alloc; 0usize; signal_count(core)]?,
            turned: Vec::new(alloc),
            marks: Vec::new(alloc),
            looked_at: 0,
        })
    }

    fn has(&self, gate: SignalId) -> bool {
        match self.places.get(gate.index()) {
            None => true,
            Some(place) => *place > 0,
        }
    }

    fn put(&mut self, gate: SignalId, place: usize) {
        if gate.index() < self.places.len() {
            self.places[gate.index()] = place;
        }
    }

    fn add(&mut self, gate: SignalId) -> Result<(), AllocError> {
        self.gates.push(gate)?;
        let place = self.gates.len();
        self.put(gate, place);
        Ok(())
    }

    /// Takes a gate out; the last one takes its place.
    fn remove(&mut self, gate: SignalId) {
        let Some(place) = self.places.get(gate.index()) else {
            return;
        };
        let place = *place;
        let Some(last) = self.gates.pop() else {
            return;
        };
        if place > 0 && place - 1 < self.gates.len() {
            self.gates[place - 1] = last;
            self.put(last, place);
        }
        self.put(gate, 0);
    }

    /// A gate comes to it, if the effect may come to the gate.
    fn come(&mut self, core: &Core, labels: &PairSim, gate: SignalId) -> Result<(), AllocError>
        requires same { labels.now.netlist ≡ core.now }
        requires not_blocked { IsNotBlocked labels.now }
    {
        if self.has(gate) || !may_get_effect(core, labels, gate) {
            return Ok(());
        }
        self.add(gate)?;
        self.turned.push(Turned { gate, came: true })?;
        Ok(())
    }

    /// The gates that read a signal with an effect come to it.
    fn come_after(
        &mut self,
        core: &Core,
        labels: &PairSim,
        signal: SignalId,
    ) -> Result<(), AllocError>
        requires same { labels.now.netlist ≡ core.now }
        requires not_blocked { IsNotBlocked labels.now }
    {
        for line in readers(core, signal) {
            if let Line::Pin(gate, _) = line {
                self.come(core, labels, *gate)?;
            }
        }
        Ok(())
    }

    /// Looks at a signal whose label has changed.
    fn look(&mut self, core: &Core, labels: &PairSim, signal: SignalId) -> Result<(), AllocError>
        requires same { labels.now.netlist ≡ core.now }
        requires not_blocked { IsNotBlocked labels.now }
    {
        if self.has(signal) && !may_get_effect(core, labels, signal) {
            self.remove(signal);
            self.turned.push(Turned {
                gate: signal,
                came: false,
            })?;
        }
        if has_effect(core, labels, signal) {
            self.come_after(core, labels, signal)?;
        }
        Ok(())
    }

    /// A gate that came goes, one that left is back.
    fn undo(&mut self, turned: Turned) -> Result<(), AllocError> {
        if turned.came {
            self.remove(turned.gate);
            return Ok(());
        }
        self.add(turned.gate)
    }

    /// Undoes what came and left since there was so much of it.
    fn undo_to(&mut self, length: usize) -> Result<(), AllocError> {
        for _step in length..self.turned.len() {
            if let Some(turned) = self.turned.pop() {
                self.undo(turned)?;
            }
        }
        Ok(())
    }

    /// Of a search that begins: from what has an effect before any decision.
    pub(crate) fn begin(
        &mut self,
        case: &Case,
        effects: &Effects,
        labels: &PairSim,
    ) -> Result<(), AllocError>
        requires same { labels.now.netlist ≡ case.now.core.now }
        requires not_blocked { IsNotBlocked labels.now }
    {
        self.undo_to(0)?;
        self.marks.clear();
        self.looked_at = labels.trail().len();
        if let Line::Pin(gate, _) = &case.fault.line {
            self.come(case.core, labels, *gate)?;
        }
        for number in 0..effects.len() {
            if let Some(signal) = effects.signal(number) {
                self.come_after(case.core, labels, signal)?;
            }
        }
        Ok(())
    }

    /// Goes back to where the last of so many decisions wasn't made, if it was turned.
    fn go_back(&mut self, depth: usize) -> Result<(), AllocError> {
        if depth == 0 || depth > self.marks.len() {
            return Ok(());
        }
        let mark = self.marks[depth - 1];
        self.marks.truncate(depth - 1);
        self.looked_at = mark.looked_at;
        self.undo_to(mark.turned)
    }

    /// Looks at what the trail has gained by the last of so many decisions.
    pub(crate) fn follow(
        &mut self,
        core: &Core,
        labels: &PairSim,
        depth: usize,
    ) -> Result<(), AllocError>
        requires same { labels.now.netlist ≡ core.now }
        requires not_blocked { IsNotBlocked labels.now }
    {
        self.go_back(depth)?;
        self.marks.push(Mark {
            turned: self.turned.len(),
            looked_at: self.looked_at,
        })?;
        let trail = labels.trail();
        for place in self.looked_at..trail.len() {
            self.look(core, labels, trail[place])?;
        }
        self.looked_at = trail.len();
        Ok(())
    }

    /// The gate, where there is one alone.
    pub(crate) fn only_gate(&self) -> Option<SignalId> {
        if self.gates.len() == 1 {
            Some(self.gates[0])
        } else {
            None
        }
    }

    /// The gate that is nearest to the observed points, of those that weren't come to; of gates as near the first one.
    fn nearest_left(&self, measures: &Measures, paths: &Paths) -> Option<SignalId> {
        let mut best: Option<SignalId> = None;
        for gate in &self.gates {
            if !paths.has(*gate) && is_nearer(measures, *gate, &best) {
                best = Some(*gate);
            }
        }
        best
    }

    /// The gate that is nearest to the observed points, of those from which the effect may come to one.
    pub(crate) fn nearest(
        &self,
        core: &Core,
        measures: &Measures,
        labels: &PairSim,
        paths: &mut Paths,
    ) -> Result<Option<SignalId>, AllocError>
        requires same { labels.now.netlist ≡ core.now }
        requires not_blocked { IsNotBlocked labels.now }
    {
        paths.begin();
        for _step in 0..signal_count(core) {
            let Some(gate) = self.nearest_left(measures, paths) else {
                return Ok(None);
            };
            if paths.leads(core, labels, gate)? {
                return Ok(Some(gate));
            }
        }
        Ok(None)
    }
}

/// Whether a gate is nearer to the observed points than the best so far.
fn is_nearer(measures: &Measures, gate: SignalId, best: &Option<SignalId>) -> bool {
    match best {
        None => true,
        Some(other) => {
            let (own, least) = (measures.sight(gate), measures.sight(*other));
            own < least || (own == least && gate.index() < other.index())
        }
    }
}
