//! What a simulation keeps beside its netlist and the held inputs.
ghost use Rattle.std.specs.Prelude.{IfOk};
ghost use Rattle.netlist.specs.Holds.{AreHoldsOf};
ghost use Rattle.netlist.specs.Lines.{IsLineOf};
ghost use Rattle.pair_sim.specs.Rooms.{IsReusableLabelRoom};

use crate::levels::Level;
use crate::reach::Reach;
use crate::sims::PairSim;
use events::EventRoom;
use netlist::{Core, Fault, Holds, Line, NoMemory, SignalId};
use std::alloc::Global;
use std::marker::Model;
use tri::{Label, Labelling};

/// The labels, decisions and tables of a simulation, for other faults of the same netlist under the same held inputs.
#[derive(Drop)]
pub struct SimRoom {
    pub(crate) fault: Fault,
    pub(crate) labelling: Labelling,
    pub(crate) events: EventRoom<Label>,
    pub(crate) levels: Vec<Level>,
    pub(crate) names: Vec<SignalId>,
    pub(crate) reach: Reach,
}

impl Model for SimRoom {
    ghost use Rattle.pair_sim.specs.Rooms.{LabelRoom};

    ghost Value = { LabelRoom };

    ghost use Rattle.std.specs.Prelude.{vec_capacity};

    ghost view = { λ r. record { fault = r.fault; stuck = r.labelling.fault; decided = r.labelling.decided.items; levels = r.levels.items; names = r.names.items; events = r.events; level_room = vec_capacity r.levels; name_room = vec_capacity r.names; seen = r.reach.points.seen.items; first = r.reach.points.first.items; numbers = r.reach.points.numbers.items; known = r.reach.known; reached = r.reach.signals.items; reach_room = vec_capacity r.reach.signals } };
}

/// A fault for a room that serves none yet, so that a room always has one.
fn some_fault(core: &Core) -> Fault
    ensures { IsLineOf core.now result.line }
{
    core.netlist().sound();
    Fault {
        line: Line::Stem(core.netlist().inputs()[0]),
        value: false,
    }
}

impl SimRoom {
    /// Room for all searches of a netlist under these held inputs.
    pub fn new(alloc: Global, core: &Core, holds: &Holds) -> Result<SimRoom, NoMemory>
        requires { AreHoldsOf core.now holds.now }
        ensures { IfOk result (IsReusableLabelRoom core.now holds.now) }
    {
        let labels = PairSim::new(alloc, core, some_fault(core), holds)?;
        Ok(labels.into_room())
    }
}
