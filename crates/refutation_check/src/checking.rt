//! The independent check of refutations.
ghost use Rattle.std.specs.Prelude.{◌≡◌, length, IfOk, MatchResult};
ghost use Rattle.netlist.specs.Conditions.{IsSound};
ghost use Rattle.netlist.specs.Holds.{AreHoldsOf};
ghost use Rattle.netlist.specs.Lines.{IsLineOf};
ghost use Rattle.statement.specs.Netlists.{signals};
ghost use Rattle.refutation.specs.Refutations.{Refutes};
ghost use Rattle.refutation_check.specs.Refusals.{IsRefutationFault};
ghost use Rattle.refutation_check.specs.Rooms.{IsReusableCheckRoom};
ghost use Rattle.refutation_check.specs.inner.Marks.{AreListed, IsClear, marked};
ghost use Rattle.refutation_check.specs.inner.Starting.{AreFixed, idle};
ghost use Rattle.refutation_check.specs.inner.Trails.{Grows};

use crate::checks::check_steps;
use crate::cones::reach;
use crate::faults::RefutationFault;
use crate::marks::clear;
use crate::rooms::CheckRoom;
use crate::sets::Sets;
use crate::starting::start;
use netlist::{Core, Fault, Holds, Netlist, NoMemory, SignalId};
use refutation::Step;
use std::alloc::Global;
use std::marker::Model;

/// The check of refutations over one netlist: from one to the next only what the faults reach and the reasons name is looked at.
#[derive(Drop)]
pub struct Checker<'a> {
    core: &'a Core,
    holds: &'a Holds,
    fixed: Vec<SignalId>,
    marks: Vec<bool>,
    list: Vec<SignalId>,
    sets: Sets,
}

impl<'a> Model for Checker<'a> {
    ghost use Rattle.refutation_check.specs.Checking.{Checking};
    ghost use Rattle.refutation_check.specs.inner.Marks.{marked};
    ghost use Rattle.refutation_check.specs.inner.Starting.{IsIdle};

    ghost Value = { Checking };

    ghost view = { λ c. record { netlist = c.core.now; holds = c.holds.now } };

    ghost invariant = { λ c. IsIdle c.core.now c.holds.now c.fixed.items c.sets (marked c.marks.items c.list.items) };
}

/// Whether the refutation is accepted, in this room.
fn run(
    netlist: &Netlist,
    holds: &Holds,
    fixed: &[SignalId],
    fault: &Fault,
    marks: &mut Vec<bool>,
    list: &mut Vec<SignalId>,
    sets: &mut Sets,
    steps: &[Step],
) -> Result<(), RefutationFault>
    requires sound { IsSound netlist.now }
    requires line { IsLineOf netlist.now fault.now.line }
    requires holds { AreHoldsOf netlist.now holds.now }
    requires fixed { AreFixed netlist.now holds.now fixed.now }
    requires size { length marks.old.items ≡ length (signals netlist.now) }
    requires clear { IsClear (marked marks.old.items list.old.items) }
    requires told { sets.old.told ≡ idle netlist.now holds.now }
    ensures grows { Grows sets.old sets.new }
    ensures listed { AreListed (marked marks.new.items list.new.items) }
    ensures size { length marks.new.items ≡ length marks.old.items }
    ensures answer { MatchResult result (λ _. Refutes fault.now netlist.now holds.now steps.now) (IsRefutationFault fault.now netlist.now holds.now steps.now) }
{
    let Ok(_reached) = reach(netlist, &fault.line, marks, list) else {
        return Err(RefutationFault::NoMemory);
    };
    let Ok(from) = start(netlist, holds, fixed, fault, marks, list, sets) else {
        return Err(RefutationFault::NoMemory);
    };
    check_steps(netlist, fault, sets, from, steps)
}

impl<'a> Checker<'a> {
    /// What signals may have without a fault, and room that every refutation uses.
    pub fn new(alloc: Global, core: &'a Core, holds: &'a Holds) -> Result<Checker<'a>, NoMemory>
        requires { AreHoldsOf core.now holds.now }
        ensures { IfOk result (λ c. (c.netlist ≡ core.now) × (c.holds ≡ holds.now)) }
    {
        let room = CheckRoom::new(alloc, core, holds)?;
        Ok(Checker::in_room(room, core, holds))
    }

    /// The check in room that was kept.
    pub fn in_room(room: CheckRoom, core: &'a Core, holds: &'a Holds) -> Checker<'a>
        requires { IsReusableCheckRoom core.now holds.now room }
        ensures { (result.netlist ≡ core.now) × (result.holds ≡ holds.now) }
    {
        let CheckRoom {
            fixed,
            marks,
            list,
            sets,
        } = room;
        Checker {
            core,
            holds,
            fixed,
            marks,
            list,
            sets,
        }
    }

    /// The room, for the next refutations of the same netlist under the same held inputs.
    pub fn into_room(self) -> CheckRoom
        ensures { IsReusableCheckRoom self.entry.netlist self.entry.holds result }
    {
        let Checker {
            core: _,
            holds: _,
            fixed,
            marks,
            list,
            sets,
        } = self;
        CheckRoom {
            fixed,
            marks,
            list,
            sets,
        }
    }

    /// Whether the steps refute the fault: exactly where they do; else the first step that doesn't hold.
    pub fn check(&mut self, fault: &Fault, steps: &[Step]) -> Result<(), RefutationFault>
        requires { IsLineOf self.old.netlist fault.now.line }
        ensures answer { MatchResult result (λ _. Refutes fault.now self.old.netlist self.old.holds steps.now) (IsRefutationFault fault.now self.old.netlist self.old.holds steps.now) }
        ensures same { self.new ≡ self.old }
    {
        let netlist = self.core.netlist();
        netlist.sound();
        let answer = run(
            netlist,
            self.holds,
            &self.fixed,
            fault,
            &mut self.marks,
            &mut self.list,
            &mut self.sets,
            steps,
        );
        self.sets.undo(0);
        clear(&mut self.marks, &mut self.list);
        answer
    }
}

/// The check of one refutation, with a checker that is made for it. Who has many of a netlist makes one [`Checker`].
pub fn check_refutation(
    alloc: Global,
    core: &Core,
    fault: &Fault,
    steps: &[Step],
    holds: &Holds,
) -> Result<(), RefutationFault>
    requires line { IsLineOf core.now fault.now.line }
    requires holds { AreHoldsOf core.now holds.now }
    ensures { MatchResult result (λ _. Refutes fault.now core.now holds.now steps.now) (IsRefutationFault fault.now core.now holds.now steps.now) }
{
    match Checker::new(alloc, core, holds) {
        Ok(mut checker) => checker.check(fault, steps),
        Err(_) => Err(RefutationFault::NoMemory),
    }
}
