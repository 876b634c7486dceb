//! How often each bit is wanted of signals, and which of them wait for the backtrace to come to them.
ghost use Rattle.std.specs.Prelude.{⊤};

use decisions::{place_of, signal_count};
use netlist::{Core, SignalId};
use std::alloc::{AllocError, Global};
use std::collections::BinaryHeap;
use std::marker::Model;

/// How often 0 and 1 are wanted of a signal.
#[derive(Clone, Copy, Drop)]
pub(crate) struct Votes {
    pub zero: u32,
    pub one: u32,
}

/// Votes, and the round of which they are.
#[derive(Clone, Copy)]
struct Wanted {
    round: u32,
    votes: Votes,
}

/// What is wanted of each signal in this round, and which signals wait.
#[derive(Drop)]
pub(crate) struct Wants {
    wanted: Vec<Wanted>,
    round: u32,
    waiting: BinaryHeap<u64>,
}

// Contracts see nothing of it.
impl Model for Wants {
    ghost Value = { ⊤ };

    ghost view = { λ _. tt };
}

/// Before which others a signal waits: gates from the last to the first in the order of evaluation, then inputs and cells.
fn rank(core: &Core, signal: SignalId) -> u64 {
    place_of(core, signal) * 4_294_967_296 + (signal.0 as u64)
}

impl Wants {
    /// With room for a netlist.
    pub(crate) fn of(alloc: Global, core: &Core) -> Result<Wants, AllocError> {
        let none = Wanted {
            round: 0,
            votes: votes_for(false, 0),
        };
        Ok(Wants {
            wanted: vec![in alloc; none; signal_count(core)]?,
            round: 0,
            waiting: BinaryHeap::new(alloc),
        })
    }

    /// A round in which nothing is wanted yet. (After 2^32 of them one takes over what was wanted in the first.)
    pub(crate) fn begin(&mut self) {
        self.round = self.round.wrapping_add(1);
        self.waiting.clear();
    }

    /// What is wanted of a signal.
    pub(crate) fn votes(&self, id: SignalId) -> Votes {
        match self.wanted.get(id.index()) {
            None => votes_for(false, 0),
            Some(wanted) => if wanted.round == self.round {
                wanted.votes
            } else {
                votes_for(false, 0)
            },
        }
    }

    /// Whether the backtrace is to come to a signal.
    fn waits(&self, id: SignalId) -> bool {
        match self.wanted.get(id.index()) {
            None => true,
            Some(wanted) => wanted.round == self.round,
        }
    }

    /// Adds to what is wanted of a signal, which waits from the first time on.
    pub(crate) fn add(&mut self, core: &Core, id: SignalId, more: Votes) -> Result<(), AllocError> {
        if !self.waits(id) {
            self.waiting.push(rank(core, id))?;
        }
        let votes = sum_of(self.votes(id), more);
        if id.index() < self.wanted.len() {
            self.wanted[id.index()] = Wanted {
                round: self.round,
                votes,
            };
        }
        Ok(())
    }

    /// The next one, the last in the order of evaluation.
    pub(crate) fn next(&mut self) -> Option<SignalId> {
        let key = self.waiting.pop()?;
        Some(SignalId((key % 4_294_967_296) as u32))
    }
}

fn sum_of(one: Votes, other: Votes) -> Votes {
    Votes {
        zero: one.zero.saturating_add(other.zero),
        one: one.one.saturating_add(other.one),
    }
}

/// So many votes for a bit.
pub(crate) fn votes_for(bit: bool, count: u32) -> Votes {
    if bit {
        Votes {
            zero: 0,
            one: count,
        }
    } else {
        Votes {
            zero: count,
            one: 0,
        }
    }
}

/// The votes, or those for the other bit.
pub(crate) fn turned(votes: Votes, inverting: bool) -> Votes {
    if inverting {
        Votes {
            zero: votes.one,
            one: votes.zero,
        }
    } else {
        votes
    }
}
