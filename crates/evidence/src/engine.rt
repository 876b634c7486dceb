//! What a search answers.
ghost use Rattle.std.specs.Prelude.{ℕ, ◌≤◌, Bool, IfOk};
ghost use Rattle.netlist.specs.Holds.{AreHoldsOf};
ghost use Rattle.netlist.specs.Lines.{IsLineOf};
ghost use Rattle.evidence.specs.Answers.{HasEvidence, MayAnswer};

use crate::kinds::Refutation;
use cubes::Cube;
use netlist::{Core, Fault, Holds, NoMemory, Point};
use redundancy_cert::Tree;
use std::alloc::Global;

/// What a search found of a fault.
#[derive(Drop)]
pub enum Found {
    /// Every pattern that agrees with the cube detects the fault at the point.
    Test(Cube, Point),
    /// A tree without Open: no pattern that obeys the held inputs detects the fault.
    Closed(Tree),
    /// Steps that refute the fault: no pattern that obeys the held inputs detects it.
    Refuted(Refutation),
    /// The search gave up: a tree with as many Closed as the backtrack limit allows.
    Partial(Tree),
}

/// A search for tests.
pub trait Engine {
    ghost use Rattle.statement.specs.Netlists.{Netlist};
    ghost use Rattle.statement.specs.Patterns.{Holds};
    ghost use Rattle.statement.specs.declared.lines.Fault.{Fault};
    ghost use Rattle.evidence.specs.declared.engine.Found.{Found};

    /// What a search may keep for the next one: tables, labels, stacks. No evidence rests on it.
    type Room: Drop + Send;

    /// The room serves searches of this netlist under these held inputs.
    ghost serves: { Netlist → Holds → Self.Room → Type 0 };

    /// The answer keeps this engine's own rule: which signals its trees decide, where they may be left open, and below which limit alone it gives up.
    /// Code over any engine rests nothing on it.
    ghost keeps_rule: { Fault → Netlist → Holds → ℕ → Found → Type 0 };

    /// Whether it may answer a refutation. Where it doesn't, all its evidence is trees.
    ghost refutes: { Bool };

    /// A test of the fault, a tree or a refutation that shows it redundant, or a tree of as many Closed as the backtrack limit.
    fn search(
        &self,
        alloc: Global,
        core: &Core,
        fault: Fault,
        limit: u32,
        holds: &Holds,
    ) -> Result<Found, NoMemory>
        requires limit { 1 ≤ limit }
        requires holds { AreHoldsOf core.now holds.now }
        requires line { IsLineOf core.now fault.line }
        ensures evidence { IfOk result (HasEvidence fault core.now holds.now limit) }
        ensures rule { IfOk result (keeps_rule fault core.now holds.now limit) }
        ensures kind { IfOk result (MayAnswer refutes) };

    /// Room for one search after the other.
    fn room(&self, alloc: Global, core: &Core, holds: &Holds) -> Result<Self::Room, NoMemory>
        requires { AreHoldsOf core.now holds.now }
        ensures { IfOk result (serves core.now holds.now) };

    /// A search in this room, whatever was searched in it before, and the room back. Its answer owes what that of `search` does, and may be another.
    fn search_in(
        &self,
        alloc: Global,
        room: Self::Room,
        core: &Core,
        fault: Fault,
        limit: u32,
        holds: &Holds,
    ) -> Result<(Found, Self::Room), NoMemory>
        requires limit { 1 ≤ limit }
        requires holds { AreHoldsOf core.now holds.now }
        requires line { IsLineOf core.now fault.line }
        requires room { serves core.now holds.now room }
        ensures evidence { IfOk result (λ r. HasEvidence fault core.now holds.now limit r.0) }
        ensures rule { IfOk result (λ r. keeps_rule fault core.now holds.now limit r.0) }
        ensures kind { IfOk result (λ r. MayAnswer refutes r.0) }
        ensures room { IfOk result (λ r. serves core.now holds.now r.1) };
}
