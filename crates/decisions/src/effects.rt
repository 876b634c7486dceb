//! The signals on which the fault's effect is known to be.
//!
//! A search asks for the gates that read such signals at every turn, and between two turns only the end of the trail of labels changes: it is
//! cut where decisions are taken back, and grows with the next one. So what stands at each place of the trail is looked at once, and what is
//! kept is a stack beside it. Going over the whole trail at every turn took two thirds of a search where a fault reaches far.
//!
//! What has an effect before any decision stands on no trail: a tie cell's stem that is stuck, or an input that is held, and what reads it. It is
//! looked for once a search, from the fault's line on.
ghost use Rattle.std.specs.Prelude.{◌≡◌};
ghost use Rattle.pair_sim.specs.Sims.{IsNotBlocked};

use crate::views::{has_effect, readers, signal_count};
use netlist::{Core, Fault, Line, SignalId};
use pair_sim::PairSim;
use std::alloc::{AllocError, Global};

/// A signal with an effect, and the place of the trail where it was found to have one.
#[derive(Clone, Copy)]
struct Effect {
    place: usize,
    signal: SignalId,
}

/// The signals with an effect: those before any decision, and then along the trail, first those that got it first, with how much of the trail has
/// been looked at.
#[derive(Drop)]
pub struct Effects {
    first: Vec<SignalId>,
    has_begun: bool,
    found: Vec<Effect>,
    looked_at: usize,
}

impl Effects {
    /// Of a search that begins.
    pub fn new(alloc: Global) -> Effects {
        Effects {
            first: Vec::new(alloc),
            has_begun: false,
            found: Vec::new(alloc),
            looked_at: 0,
        }
    }

    /// Another search begins.
    pub fn begin(&mut self) {
        self.first.clear();
        self.has_begun = false;
        self.cut(0);
    }

    /// The trail has been cut to this length.
    pub fn cut(&mut self, length: usize) {
        let kept = self.found.partition_point(|effect| effect.place < length);
        self.found.truncate(kept);
        self.looked_at = self.looked_at.min(length);
    }

    /// A signal before any decision, if it has an effect and was not met.
    fn meet(&mut self, core: &Core, labels: &PairSim, signal: SignalId) -> Result<(), AllocError>
        requires same { labels.now.netlist ≡ core.now }
        requires not_blocked { IsNotBlocked labels.now }
    {
        if has_effect(core, labels, signal) && !self.first.contains(&signal) {
            self.first.push(signal)?;
        }
        Ok(())
    }

    /// The gates that read a signal, if they have an effect.
    fn meet_readers(
        &mut self,
        core: &Core,
        labels: &PairSim,
        signal: SignalId,
    ) -> Result<(), AllocError>
        requires same { labels.now.netlist ≡ core.now }
        requires not_blocked { IsNotBlocked labels.now }
    {
        for line in readers(core, signal) {
            if let Line::Pin(gate, _) = line {
                self.meet(core, labels, *gate)?;
            }
        }
        Ok(())
    }

    /// Goes on from the fault's line over what has an effect.
    fn meet_all(&mut self, core: &Core, fault: &Fault, labels: &PairSim) -> Result<(), AllocError>
        requires same { labels.now.netlist ≡ core.now }
        requires not_blocked { IsNotBlocked labels.now }
    {
        match &fault.line {
            Line::Stem(signal) => self.meet(core, labels, *signal)?,
            Line::Pin(gate, _) => self.meet(core, labels, *gate)?,
            Line::Out(_) => {}
        }
        for number in 0..signal_count(core) {
            match self.first.get(number) {
                None => return Ok(()),
                Some(signal) => {
                    let signal = *signal;
                    self.meet_readers(core, labels, signal)?;
                }
            }
        }
        Ok(())
    }

    /// Looks at what the trail has gained; at first, where there is no decision, at what has an effect without one.
    pub fn follow(&mut self, core: &Core, fault: &Fault, labels: &PairSim) -> Result<(), AllocError>
        requires same { labels.now.netlist ≡ core.now }
        requires not_blocked { IsNotBlocked labels.now }
    {
        if !self.has_begun {
            self.has_begun = true;
            self.meet_all(core, fault, labels)?;
        }
        let trail = labels.trail();
        for place in self.looked_at..trail.len() {
            let signal = trail[place];
            if has_effect(core, labels, signal) {
                self.found.push(Effect { place, signal })?;
            }
        }
        self.looked_at = trail.len();
        Ok(())
    }

    /// The signals, one after the other.
    pub fn signal(&self, number: usize) -> Option<SignalId> {
        if number < self.first.len() {
            return Some(self.first[number]);
        }
        self.found
            .get(number - self.first.len())
            .map(|effect| effect.signal)
    }

    pub fn len(&self) -> usize {
        self.first.len().saturating_add(self.found.len())
    }
}
