//! What a check keeps beside its netlist and the held inputs.
ghost use Rattle.std.specs.Prelude.{IfOk};
ghost use Rattle.netlist.specs.Holds.{AreHoldsOf};
ghost use Rattle.refutation_check.specs.Rooms.{IsReusableCheckRoom};

use crate::sets::Sets;
use crate::starting::{fixed, idle};
use netlist::{Core, Holds, NoMemory, SignalId};
use std::alloc::Global;
use std::marker::Model;

/// What signals may have without a fault, and marks: for all refutations of the same netlist under the same held inputs.
#[derive(Drop)]
pub struct CheckRoom {
    pub(crate) fixed: Vec<SignalId>,
    pub(crate) marks: Vec<bool>,
    pub(crate) list: Vec<SignalId>,
    pub(crate) sets: Sets,
}

impl Model for CheckRoom {
    ghost use Rattle.refutation_check.specs.Rooms.{MarkRoom};
    ghost use Rattle.refutation_check.specs.inner.Marks.{marked};

    ghost Value = { MarkRoom };

    ghost view = { λ r. record { fixed = r.fixed.items; sets = r.sets; marked = marked r.marks.items r.list.items } };
}

impl CheckRoom {
    /// Room for all refutations of a netlist under these held inputs.
    pub fn new(alloc: Global, core: &Core, holds: &Holds) -> Result<CheckRoom, NoMemory>
        requires { AreHoldsOf core.now holds.now }
        ensures { IfOk result (IsReusableCheckRoom core.now holds.now) }
    {
        core.netlist().sound();
        let told = idle(alloc, core, holds)?;
        let fixed = fixed(alloc, core.netlist(), holds)?;
        let count = core.netlist().inputs().len() + core.netlist().definitions().len();
        let marks = vec![in alloc; false; count]?;
        let sets = Sets::new(alloc, told)?;
        Ok(CheckRoom {
            fixed,
            marks,
            list: Vec::new(alloc),
            sets,
        })
    }
}
