//! Wide gates, watched. Two pins of each are kept in mind: one that was X when the gate was evaluated whole, and the one that changed last. A pin that has
//! the controlling value tells what the gate makes, and while the other is X no pin changes that which doesn't take the controlling value: so most
//! changes cost one look, where the gate evaluated whole costs all its pins. (Watched literals: Moskewicz and others, Chaff, 2001. Counts of the
//! pins at each value do the same, but have to be right at each change and at each undo.) Which pins these are is a hint: what a pin tells is
//! right whichever it is.
use netlist::{Definition, Netlist, SignalId};
use std::alloc::{AllocError, Global};

/// A gate of at most so many pins is evaluated whole.
const MOST_OF_NARROW: usize = 16;

/// The places of the pins that are kept in mind.
#[derive(Clone, Copy)]
pub(crate) struct Watched {
    pub unset: u32,
    pub latest: u32,
}

/// For each signal whether a wide gate reads it, and what is watched at its own gate. Both are empty where no gate is wide.
#[derive(Drop)]
pub(crate) struct Watches {
    is_read: Vec<bool>,
    gates: Vec<Watched>,
}

/// Whether the gate has so many pins that it is watched.
#[inline(always)]
pub(crate) fn is_wide(gate: &Definition) -> bool {
    gate.pins().len() > MOST_OF_NARROW
}

fn has_wide(netlist: &Netlist) -> bool {
    for definition in netlist.definitions() {
        if is_wide(definition) {
            return true;
        }
    }
    false
}

/// A wide gate reads these signals.
fn note(pins: &[SignalId], is_read: &mut Vec<bool>) {
    for id in pins {
        if id.index() < is_read.len() {
            is_read[id.index()] = true;
        }
    }
}

impl Watches {
    /// For a netlist.
    pub(crate) fn of(alloc: Global, netlist: &Netlist) -> Result<Watches, AllocError> {
        netlist.sound();
        let mut count = 0;
        if has_wide(netlist) {
            count = netlist.inputs().len() + netlist.definitions().len();
        }
        let mut is_read = vec![in alloc; false; count]?;
        let first = Watched {
            unset: 0,
            latest: 0,
        };
        let gates = vec![in alloc; first; count]?;
        for definition in netlist.definitions() {
            if is_wide(definition) {
                note(definition.pins(), &mut is_read);
            }
        }
        Ok(Watches { is_read, gates })
    }

    /// Whether a wide gate reads the signal.
    #[inline(always)]
    pub(crate) fn is_read(&self, id: SignalId) -> bool {
        match self.is_read.get(id.index()) {
            None => false,
            Some(is_read) => *is_read,
        }
    }

    /// What is watched at a gate.
    pub(crate) fn at(&self, id: SignalId) -> Watched {
        match self.gates.get(id.index()) {
            None => Watched {
                unset: 0,
                latest: 0,
            },
            Some(watched) => *watched,
        }
    }

    /// The pin at this place was the last to change.
    pub(crate) fn changed(&mut self, id: SignalId, place: u32) {
        if id.index() < self.gates.len() {
            self.gates[id.index()].latest = place;
        }
    }

    /// The pin at this place is X.
    pub(crate) fn watch(&mut self, id: SignalId, place: u32) {
        if id.index() < self.gates.len() {
            self.gates[id.index()].unset = place;
        }
    }
}
