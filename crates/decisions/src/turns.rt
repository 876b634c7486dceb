//! What a turn of a search does with the stack.
ghost use Rattle.std.specs.Prelude.{◌≡◌, [], ◌∷◌, false, IfOk, OnOk, if◌then◌else◌};
ghost use Rattle.decisions.specs.Climbing.{IsAtEnd, with_side, IsBacktrackStep};

use crate::climbing::climb;
use crate::effects::Effects;
use crate::trees::forced_tree;
use netlist::{Point, SignalId};
use pair_sim::PairSim;
use redundancy_cert::{Node, Other, Side};
use std::alloc::{AllocError, Global};

/// What comes of a turn.
#[derive(Drop)]
pub enum Step {
    /// The simulation is at a test.
    Found(Point),
    /// The tree is whole.
    Done(Vec<Node>),
    /// The search goes on; whether there is one Closed more.
    On(bool),
}

/// How many Closed there are more.
pub fn one_if(more: bool) -> u32
    ensures { result ≡ (if more then 1 else 0) }
{
    if more { 1 } else { 0 }
}

/// Puts a decision onto the stack, to which the simulation has gone.
pub fn push(
    stack: &mut Vec<Side>,
    signal: SignalId,
    bit: bool,
    other: Other,
) -> Result<Step, AllocError>
    ensures { IfOk result (λ step. (step ≡ Step.On false) × (stack.new.items ≡ with_side stack.old.items signal bit other)) }
{
    stack.push(Side { signal, bit, other })?;
    Ok(Step::On(false))
}

/// A turn that sees both sides of a signal closed, this bit's and the other: the path ends here.
pub fn close_both(
    alloc: Global,
    effects: &mut Effects,
    labels: &mut PairSim,
    stack: &mut Vec<Side>,
    signal: SignalId,
    bit: bool,
) -> Result<Step, AllocError>
    requires { IsAtEnd labels.old.fault labels.old.netlist labels.old.holds labels.old stack.old.items }
    ensures end { OnOk result (IsAtEnd labels.old.fault labels.old.netlist labels.old.holds labels.new stack.new.items) }
    ensures step { IfOk result (IsBacktrackStep (Node.Forced signal bit ∷ Node.Closed ∷ []) stack.old.items stack.new.items) }
{
    let done = forced_tree(alloc, signal, bit)?;
    match climb(effects, labels, stack, done)? {
        Some(nodes) => Ok(Step::Done(nodes)),
        None => Ok(Step::On(true)),
    }
}
