//! The check of evidence, of either kind: a tree by the checker of trees, a refutation by that of refutations.
ghost use Rattle.std.specs.Prelude.{◌≡◌, IfOk};
ghost use Rattle.std.specs.List.{All};
ghost use Rattle.netlist.specs.Holds.{AreHoldsOf};
ghost use Rattle.netlist.specs.Lines.{IsLineOf};
ghost use Rattle.redundancy_cert.specs.Trees.{DecidesSignal};
ghost use Rattle.evidence.specs.Evidence.{Shows};
ghost use Rattle.check_parts.specs.Checkers.{AreShown, NamesSignals};

use evidence::Evidence;
use netlist::{Core, Fault, Holds, NoMemory};
use redundancy_cert::{Checker as TreeChecker, Counts, Tree, TreeFault};
use refutation::Step;
use refutation_check::{Checker as StepChecker, RefutationFault, refused_refutes_nothing};
use std::alloc::Global;
use std::marker::Model;

/// The two checkers, of one netlist under the same held inputs.
#[derive(Drop)]
pub(crate) struct Checkers<'a> {
    trees: TreeChecker<'a>,
    steps: StepChecker<'a>,
}

impl<'a> Model for Checkers<'a> {
    ghost use Rattle.std.specs.Prelude.{◌≡◌};
    ghost use Rattle.redundancy_cert.specs.Checking.{Checking};

    ghost Value = { Checking };

    ghost view = { λ c. c.trees };

    ghost invariant = { λ c. (c.steps.netlist ≡ c.trees.netlist) × (c.steps.holds ≡ c.trees.holds) };
}

/// The ends of a tree, if it fits.
fn tree_ends(
    checker: &mut TreeChecker<'_>,
    fault: &Fault,
    tree: &Tree,
) -> Result<Option<Counts>, NoMemory>
    requires line { IsLineOf checker.old.netlist fault.now.line }
    requires decides { All (DecidesSignal checker.old.netlist) tree.now }
    ensures same { checker.new ≡ checker.old }
    ensures ends { IfOk result (AreShown (Shows fault.now checker.old.netlist checker.old.holds (Evidence.Tree tree.now)) (Evidence.Tree tree.now)) }
{
    match checker.check(fault, tree) {
        Ok(counts) => Ok(Some(counts)),
        Err(TreeFault::BadTree(_)) => Ok(None),
        Err(TreeFault::NoMemory) => Err(NoMemory),
    }
}

/// The ends of steps, of which there are none, if they refute the fault.
fn steps_ends(
    checker: &mut StepChecker<'_>,
    fault: &Fault,
    steps: &[Step],
) -> Result<Option<Counts>, NoMemory>
    requires { IsLineOf checker.old.netlist fault.now.line }
    ensures same { checker.new ≡ checker.old }
    ensures ends { IfOk result (AreShown (Shows fault.now checker.old.netlist checker.old.holds (Evidence.Refutation steps.now)) (Evidence.Refutation steps.now)) }
{
    refused_refutes_nothing();
    match checker.check(fault, steps) {
        Ok(()) => Ok(Some(Counts {
            closed: 0,
            left_open: 0,
        })),
        Err(RefutationFault::BadStep(_)) => Ok(None),
        Err(RefutationFault::Unfinished) => Ok(None),
        Err(RefutationFault::NoMemory) => Err(NoMemory),
    }
}

impl<'a> Checkers<'a> {
    pub(crate) fn new(
        alloc: Global,
        core: &'a Core,
        holds: &'a Holds,
    ) -> Result<Checkers<'a>, NoMemory>
        requires { AreHoldsOf core.now holds.now }
        ensures { IfOk result (λ c. (c.netlist ≡ core.now) × (c.holds ≡ holds.now)) }
    {
        let trees = TreeChecker::new(alloc, core, holds)?;
        match StepChecker::new(alloc, core, holds) {
            Ok(steps) => Ok(Checkers { trees, steps }),
            Err(_) => {
                drop(trees);
                Err(NoMemory)
            }
        }
    }

    /// How many ends of the evidence are closed and how many open, where it shows the fault. A refutation has none.
    pub(crate) fn ends(
        &mut self,
        fault: &Fault,
        evidence: &Evidence,
    ) -> Result<Option<Counts>, NoMemory>
        requires line { IsLineOf self.old.netlist fault.now.line }
        requires named { NamesSignals self.old.netlist evidence.now }
        ensures same { self.new ≡ self.old }
        ensures ends { IfOk result (AreShown (Shows fault.now self.old.netlist self.old.holds evidence.now) evidence.now) }
    {
        match evidence {
            Evidence::Tree(tree) => tree_ends(&mut self.trees, fault, tree),
            Evidence::Refutation(refutation) => {
                steps_ends(&mut self.steps, fault, refutation.steps())
            }
        }
    }
}
