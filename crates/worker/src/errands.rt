//! What a search is given.
ghost use Rattle.std.specs.Prelude.{◌≡◌};
ghost use Rattle.std.specs.Option.{option_copied};
ghost use Rattle.worker.specs.Working.{MaySearch};

use evidence::Engine;
use list_core::{About, Goal};
use netlist::{Core, Holds};
use outside::Gate;
use std::alloc::Global;
use std::marker::{Model, PhantomData};

/// What a search is given: threads, memory, the netlist with its held inputs, the engine, and where it passes.
#[derive(Drop)]
pub struct Errand<'a, E: Engine, G: Gate, R> {
    pub rt: &'a R,
    pub alloc: Global,
    pub core: &'a Core,
    pub engine: &'a E,
    pub stage: &'a G,
    pub holds: &'a Holds,
}

/// An errand whose netlist, held inputs and engine serve to search what the list is about, and when it is enough. Contracts see it as its goal.
#[derive(Drop)]
pub(crate) struct Brief<'a, J: About, E: Engine, G: Gate, R> {
    pub rt: &'a R,
    pub alloc: Global,
    pub core: &'a Core,
    pub engine: &'a E,
    pub stage: &'a G,
    pub holds: &'a Holds,
    pub goal: Option<&'a Goal>,
    pub about: PhantomData<J>,
}

impl<'a, J: About, E: Engine, G: Gate, R> Model for Brief<'a, J, E, G, R> {
    ghost use Rattle.std.specs.Prelude.{Option};
    ghost use Rattle.std.specs.Option.{option_copied};
    ghost use Rattle.list_core.specs.declared.goals.Goal.{Goal};
    ghost use Rattle.worker.specs.Working.{MaySearch};

    ghost Value = { Option Goal };

    ghost view = { λ b. option_copied b.goal };

    ghost invariant = { λ b. MaySearch J.subject b.core.now b.holds.now E.refutes };
}

/// The errand, until it is enough for the goal.
pub(crate) fn brief_of<'a, J: About, E: Engine, G: Gate, R>(
    errand: &Errand<'a, E, G, R>,
    goal: Option<&'a Goal>,
) -> Brief<'a, J, E, G, R>
    requires { MaySearch J.subject errand.now.core.now errand.now.holds.now E.refutes }
    ensures { result ≡ option_copied goal.entry }
{
    Brief {
        rt: errand.rt,
        alloc: errand.alloc,
        core: errand.core,
        engine: errand.engine,
        stage: errand.stage,
        holds: errand.holds,
        goal,
        about: PhantomData,
    }
}
