//! Trees of decisions, as their nodes in preorder.
ghost use Rattle.std.specs.Prelude.{◌≡◌};
ghost use Rattle.redundancy_cert.specs.Trees.{IsOneTree};

use netlist::SignalId;
use std::marker::Model;

/// A node of a tree of decisions.
#[derive(Clone, Copy, PartialEq, Eq)]
pub enum Node {
    /// The path ends here: no pattern that agrees with it detects the fault.
    Closed,
    /// The path ends here, and nothing is said.
    Open,
    /// The tree of the signal's 0 follows, and then that of its 1.
    Split(SignalId),
    /// The tree of this bit follows; no pattern with the other one detects the fault.
    Forced(SignalId, bool),
}

/// A tree of decisions: a list of nodes that is one tree in preorder.
#[derive(Drop)]
pub struct Tree {
    nodes: Vec<Node>,
}

impl Model for Tree {
    ghost use Rattle.std.specs.Prelude.{List};
    ghost use Rattle.redundancy_cert.specs.declared.nodes.Node.{Node};

    ghost Value = { List Node };

    ghost view = { λ t. t.nodes.items };

    ghost use Rattle.redundancy_cert.specs.Trees.{IsOneTree};

    ghost invariant = { λ t. IsOneTree t.nodes.items };
}

impl Tree {
    pub fn new(nodes: Vec<Node>) -> Tree
        requires { IsOneTree nodes.items }
        ensures { result ≡ nodes.items }
    {
        Tree { nodes }
    }

    pub fn nodes(&self) -> &[Node]
        ensures { result.now ≡ self.now }
    {
        &self.nodes
    }

    /// What every tree is.
    pub fn one(&self)
        ensures { IsOneTree self.now }
    {
        let _ = &self.nodes;
    }
}
