//! Whether an effect may still come from a gate to an observed point, along signals that may differ. (The X-path check of Goel 1981.) A gate of the
//! D-frontier from which it can't is no objective: deciding its pins doubles the tree and closes nothing. Nothing stands on it but the speed of the search.
ghost use Rattle.std.specs.Prelude.{◌≡◌, ⊤};
ghost use Rattle.pair_sim.specs.Sims.{IsNotBlocked};

use decisions::{gate_of, may_get_effect, readers, signal_count};
use netlist::{Core, Line, SignalId};
use pair_sim::PairSim;
use std::alloc::{AllocError, Global};
use std::marker::Model;

/// The signals that were come to, round by round.
#[derive(Drop)]
pub(crate) struct Paths {
    /// The last round in which a signal was come to.
    rounds: Vec<u32>,
    round: u32,
    waiting: Vec<SignalId>,
}

// Contracts see nothing of it.
impl Model for Paths {
    ghost Value = { ⊤ };

    ghost view = { λ _. tt };
}

impl Paths {
    /// With room for a netlist.
    pub(crate) fn of(alloc: Global, core: &Core) -> Result<Paths, AllocError> {
        Ok(Paths {
            rounds: vec![in alloc; 0u32; signal_count(core)]?,
            round: 0,
            waiting: Vec::new(alloc),
        })
    }

    /// A round in which nothing was come to yet. (After 2^32 of them one passes over gates that it should try.)
    pub(crate) fn begin(&mut self) {
        self.round = self.round.wrapping_add(1);
    }

    /// Whether a signal was come to in this round.
    pub(crate) fn has(&self, id: SignalId) -> bool {
        match self.rounds.get(id.index()) {
            None => true,
            Some(round) => *round == self.round,
        }
    }

    /// Comes to a signal, unless it was come to.
    fn meet(&mut self, id: SignalId) -> Result<(), AllocError> {
        if self.has(id) {
            return Ok(());
        }
        if id.index() < self.rounds.len() {
            self.rounds[id.index()] = self.round;
        }
        self.waiting.push(id)?;
        Ok(())
    }

    /// Comes to the gates after a signal that the effect may go on to; or tells that the signal is observed.
    fn go_on(&mut self, core: &Core, labels: &PairSim, id: SignalId) -> Result<bool, AllocError>
        requires same { labels.now.netlist ≡ core.now }
        requires not_blocked { IsNotBlocked labels.now }
    {
        for line in readers(core, id) {
            match line {
                Line::Stem(_) => {}
                Line::Out(_) => return Ok(true),
                Line::Pin(gate, _) => {
                    if gate_of(core, *gate).is_none() {
                        return Ok(true);
                    }
                    if may_get_effect(core, labels, *gate) {
                        self.meet(*gate)?;
                    }
                }
            }
        }
        Ok(false)
    }

    /// Whether the effect may come from a gate to an observed point. Where it can't, all that it may come to was come to.
    pub(crate) fn leads(
        &mut self,
        core: &Core,
        labels: &PairSim,
        gate: SignalId,
    ) -> Result<bool, AllocError>
        requires same { labels.now.netlist ≡ core.now }
        requires not_blocked { IsNotBlocked labels.now }
    {
        self.waiting.clear();
        self.meet(gate)?;
        for _step in 0..signal_count(core) {
            let Some(id) = self.waiting.pop() else {
                return Ok(false);
            };
            if self.go_on(core, labels, id)? {
                return Ok(true);
            }
        }
        Ok(false)
    }
}
