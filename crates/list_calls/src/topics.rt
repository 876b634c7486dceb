//! What a list is about, told once for all its calls.
ghost use Rattle.std.specs.Prelude.{◌≡◌, [], IfOk};

use list_core::{About, FaultList, Left};
use netlist::{Core, Fault, Holds, NoMemory};
use std::alloc::{AllocError, Global};
use std::marker::{Model, PhantomData};

/// What is asked of a new list in which no input is held. Contracts see what the list is about, where evidence is a tree. The calls are bytes, since
/// a call that says what a list is about may have no `str`.
#[derive(Drop)]
pub struct Plan<'a> {
    pub alloc: Global,
    pub core: &'a Core,
    pub faults: &'a [Fault],
    pub limit: u32,
    pub holds: &'a Holds,
    pub calls: &'a [u8],
}

impl<'a> Model for Plan<'a> {
    ghost use Rattle.std.specs.Prelude.{◌≡◌, ◌≤◌, ◌<◌, ◌^◌, false, length};
    ghost use Rattle.std.specs.List.{All};
    ghost use Rattle.statement.specs.declared.lines.Fault.{Fault as FaultOf};
    ghost use Rattle.netlist.specs.Holds.{none_held};
    ghost use Rattle.netlist.specs.Lines.{IsLineOf};
    ghost use Rattle.list_core.specs.Subjects.{Subject};

    ghost Value = { Subject };

    ghost view = { λ p. record { netlist = p.core.now; faults = p.faults.now; limit = p.limit; holds = p.holds.now; refutes = false } };

    ghost invariant = { λ p.
        All (λ (f : FaultOf). IsLineOf p.core.now f.line) p.faults.now
        × (length p.faults.now < 2 ^ 31)
        × (1 ≤ p.limit)
        × (p.holds.now ≡ none_held p.core.now) };
}

/// What a list is about in which no input is held. Contracts see whether evidence may be a refutation.
#[derive(Drop)]
pub struct Topic<'a, J: About> {
    pub alloc: Global,
    pub core: &'a Core,
    pub faults: &'a [Fault],
    pub limit: u32,
    pub holds: &'a Holds,
    pub refutes: bool,
    pub about: PhantomData<J>,
}

impl<'a, J: About> Model for Topic<'a, J> {
    ghost use Rattle.std.specs.Prelude.{◌≡◌, ◌<◌, ◌^◌, Bool};
    ghost use Rattle.netlist.specs.Holds.{none_held};
    ghost use Rattle.list_core.specs.Subjects.{class_count};
    ghost use Rattle.worker.specs.Working.{MaySearch};

    ghost Value = { Bool };

    ghost view = { λ t. t.refutes };

    ghost invariant = { λ t.
        MaySearch J.subject t.core.now t.holds.now t.refutes
        × (t.faults.now ≡ J.subject.faults)
        × (class_count J.subject < 2 ^ 31)
        × (t.limit ≡ J.subject.limit)
        × (t.holds.now ≡ none_held t.core.now) };
}

/// What the plan's list is about.
pub fn topic_of<'a, J: About>(plan: &Plan<'a>, refutes: bool) -> Topic<'a, J>
    requires { J.subject ≡ record plan.now { refutes = refutes } }
    ensures { result ≡ refutes }
{
    Topic {
        alloc: plan.alloc,
        core: plan.core,
        faults: plan.faults,
        limit: plan.limit,
        holds: plan.holds,
        refutes,
        about: PhantomData,
    }
}

/// A new list.
pub fn list_of<J: About>(topic: &Topic<'_, J>) -> Result<FaultList<J>, AllocError>
    ensures { IfOk result (λ l. l.journal ≡ []) }
{
    match FaultList::<J>::new(
        topic.alloc,
        topic.core,
        topic.faults,
        topic.limit,
        topic.holds,
    ) {
        Ok(list) => Ok(list),
        Err(_) => Err(AllocError),
    }
}

/// All classes, as a new list has them.
pub fn all_classes<J: About>(topic: &Topic<'_, J>) -> Result<Left<J>, NoMemory> {
    match list_of(topic) {
        Ok(list) => list.undetected(topic.alloc),
        Err(_) => Err(NoMemory),
    }
}
