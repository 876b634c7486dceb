//! Which answers carry over from a batch to the two frames of one slow line.
//!
//! A tree that splits at a signal of the two frames splits there alike; one that splits at a gate of another slow line means nothing there. An engine
//! decides inputs and cells, or signals on the way to them, so that this is a test that hardly ever fails: whoever fails it is searched alone.
//!
//! A refutation never carries over: its steps read the pins of gates, and in a batch readers of the other slow lines have others.
ghost use Rattle.std.specs.Prelude.{◌↔◌, IsTrue};
ghost use Rattle.std.specs.List.{All};
ghost use Rattle.transition_batches.specs.Batches.{DecidesBelow, DecidesFrames};

use evidence::Found;
use netlist::Netlist;
use redundancy_cert::Node;

/// Whether a node decides nothing but signals below the bound.
fn decides_below(bound: usize, node: &Node) -> bool
    ensures { IsTrue result ↔ DecidesBelow bound node.now }
{
    match node {
        Node::Closed => true,
        Node::Open => true,
        Node::Split(x) => x.index() < bound,
        Node::Forced(x, _) => x.index() < bound,
    }
}

/// Whether all nodes do.
fn all_decide_below(bound: usize, nodes: &[Node]) -> bool
    ensures { IsTrue result ↔ All (DecidesBelow bound) nodes.now }
{
    for node in nodes {
        if !decides_below(bound, node) {
            return false;
        }
    }
    true
}

/// Whether an answer decides nothing but inputs, cells and gates of the two frames.
pub fn decides_frames(netlist: &Netlist, found: &Found) -> bool
    ensures { IsTrue result ↔ DecidesFrames netlist.now found.now }
{
    netlist.sound();
    let bound = netlist.inputs().len() + 2 * netlist.definitions().len();
    match found {
        Found::Test(_, _) => true,
        Found::Closed(tree) => all_decide_below(bound, tree.nodes()),
        Found::Refuted(_) => false,
        Found::Partial(tree) => all_decide_below(bound, tree.nodes()),
    }
}
