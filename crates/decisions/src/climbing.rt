//! Back to the last decision whose other side is untried.
ghost use Rattle.std.specs.Prelude.{IfOk, OnOk, MatchOption};
ghost use Rattle.decisions.specs.Climbing.{IsAtEnd, IsBacktrack, AreAllEnded};

use crate::effects::Effects;
use pair_sim::PairSim;
use redundancy_cert::{Node, Side, Turn, end_side};
use std::alloc::AllocError;

/// The search of the path's end is done with this tree: goes on at the last side that is untried, or gives the whole tree.
pub fn climb(
    effects: &mut Effects,
    labels: &mut PairSim,
    stack: &mut Vec<Side>,
    mut done: Vec<Node>,
) -> Result<Option<Vec<Node>>, AllocError>
    requires { IsAtEnd labels.old.fault labels.old.netlist labels.old.holds labels.old stack.old.items }
    ensures end { OnOk result (IsAtEnd labels.old.fault labels.old.netlist labels.old.holds labels.new stack.new.items) }
    ensures tree { IfOk result (λ tree. MatchOption tree
        (IsBacktrack done.items stack.old.items stack.new.items)
        (λ nodes. AreAllEnded done.items stack.old.items stack.new.items nodes.items)) }
{
    while stack.len() > 0 {
        labels.undo();
        effects.cut(labels.trail().len());
        match end_side(stack, done)? {
            Turn::Climbed(nodes) => done = nodes,
            Turn::Turned => {
                let last = &stack[stack.len() - 1];
                labels.assign(last.signal, last.bit);
                return Ok(None);
            }
        }
    }
    Ok(Some(done))
}
