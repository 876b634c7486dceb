//! The independent check of trees.
ghost use Rattle.std.specs.Prelude.{◌≡◌, ◌<◌, ◌≤◌, ◌+◌, ◌^◌, List, [], ◌∷◌, ◌++◌, None, Some, IfOk, MatchResult};
ghost use Rattle.std.specs.List.{All};
ghost use Rattle.netlist.specs.Holds.{AreHoldsOf};
ghost use Rattle.netlist.specs.Lines.{IsLineOf};
ghost use Rattle.redundancy_cert.specs.declared.nodes.Node.{Node};
ghost use Rattle.redundancy_cert.specs.Trees.{DecidesSignal, IsOneTree};
ghost use Rattle.redundancy_cert.specs.Fits.{Fits, AreCounts, IsTreeFault};
ghost use Rattle.redundancy_cert.specs.inner.Passing.{SameRun};
ghost use Rattle.redundancy_cert.specs.inner.Walk.{IsAt};

use crate::counts::{Counts, count_node};
use crate::nodes::{Node, Tree};
use crate::passes::Pass;
use crate::steps::{Step, enter, unwind};
use netlist::{Core, Fault, Holds, NoMemory};
use std::alloc::Global;
use std::marker::Model;

/// Why a tree is refused.
#[derive(Clone, Copy, PartialEq, Eq)]
pub enum TreeFault {
    /// The first node, in preorder, that doesn't fit.
    BadTree(u64),
    NoMemory,
}

/// The check of trees over one netlist: from tree to tree only what a fault and its decisions reach is evaluated.
#[derive(Drop)]
pub struct Checker<'a> {
    pass: Pass<'a>,
    path: Vec<Step>,
}

impl<'a> Model for Checker<'a> {
    ghost use Rattle.redundancy_cert.specs.Checking.{Checking};

    ghost Value = { Checking };

    ghost use Rattle.redundancy_cert.specs.inner.Walk.{IsIdle};

    ghost view = { λ c. record { netlist = c.pass.netlist; holds = c.pass.holds } };

    ghost invariant = { λ c. IsIdle c.pass c.path.items };
}

/// How many nodes are Closed and how many Open, where the tree fits the fault; or the first node that doesn't.
fn check_nodes(
    pass: &mut Pass,
    path: &mut Vec<Step>,
    fault: &Fault,
    nodes: &[Node],
) -> Result<Counts, TreeFault>
    requires line { IsLineOf pass.old.netlist fault.now.line }
    requires stuck { pass.old.fault ≡ Some fault.now }
    requires root { IsAt pass.old [] }
    requires none { path.old.items ≡ [] }
    requires decides { All (DecidesSignal pass.old.netlist) nodes.now }
    requires one { IsOneTree nodes.now }
    ensures at { IsAt pass.new path.new.items }
    ensures same { SameRun pass.old pass.new }
    ensures answer { MatchResult result (λ c. Fits fault.now pass.old.netlist pass.old.holds nodes.now × AreCounts nodes.now c)
        (IsTreeFault fault.now pass.old.netlist pass.old.holds nodes.now) }
{
    let mut counts = Counts {
        closed: 0,
        left_open: 0,
    };
    for i in 0..nodes.len() {
        match enter(pass, path, fault, &nodes[i]) {
            Err(_) => return Err(TreeFault::NoMemory),
            Ok(false) => return Err(TreeFault::BadTree(i as u64)),
            Ok(true) => count_node(&mut counts, &nodes[i]),
        }
    }
    Ok(counts)
}

impl<'a> Checker<'a> {
    /// The labels without a fault, and room that every tree uses.
    pub fn new(alloc: Global, core: &'a Core, holds: &'a Holds) -> Result<Checker<'a>, NoMemory>
        requires { AreHoldsOf core.now holds.now }
        ensures { IfOk result (λ c. (c.netlist ≡ core.now) × (c.holds ≡ holds.now)) }
    {
        let pass = Pass::new(alloc, core, holds)?;
        Ok(Checker {
            pass,
            path: Vec::new(alloc),
        })
    }

    /// How many nodes of the tree are Closed and how many Open, where it fits the fault; or the first node that doesn't.
    pub fn check(&mut self, fault: &Fault, tree: &Tree) -> Result<Counts, TreeFault>
        requires line { IsLineOf self.old.netlist fault.now.line }
        requires decides { All (DecidesSignal self.old.netlist) tree.now }
        ensures answer { MatchResult result (λ c. Fits fault.now self.old.netlist self.old.holds tree.now × AreCounts tree.now c)
            (IsTreeFault fault.now self.old.netlist self.old.holds tree.now) }
        ensures same { self.new ≡ self.old }
    {
        tree.one();
        self.pass.stick(fault);
        let answer = check_nodes(&mut self.pass, &mut self.path, fault, tree.nodes());
        unwind(&mut self.pass, &mut self.path);
        self.pass.free(fault);
        answer
    }
}

/// The check of one tree, with a checker that is made for it. Who has many trees of a netlist makes one [`Checker`].
pub fn check_tree(
    alloc: Global,
    core: &Core,
    fault: &Fault,
    tree: &Tree,
    holds: &Holds,
) -> Result<Counts, TreeFault>
    requires line { IsLineOf core.now fault.now.line }
    requires decides { All (DecidesSignal core.now) tree.now }
    requires holds { AreHoldsOf core.now holds.now }
    ensures { MatchResult result (λ c. Fits fault.now core.now holds.now tree.now × AreCounts tree.now c) (IsTreeFault fault.now core.now holds.now tree.now) }
{
    match Checker::new(alloc, core, holds) {
        Ok(mut checker) => checker.check(fault, tree),
        Err(_) => Err(TreeFault::NoMemory),
    }
}
