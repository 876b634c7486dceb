//! Trees of decisions, checked against a fault.
ghost use Rattle.std.specs.Prelude.{IfOk};
ghost use Rattle.std.specs.List.{All};
ghost use Rattle.netlist.specs.Lines.{IsLineOf};
ghost use Rattle.redundancy_cert.specs.Trees.{DecidesSignal};

use crate::faults::listed;
use case_nets::{holds_of, nodes_of, signal};
use case_text::{Args, Pushed, Said, cut_at, small};
use certificate::is_one_tree;
use netlist::{Core, Fault, Netlist};
use redundancy_cert::{Counts, Node, Tree, TreeFault, check_tree};
use std::alloc::{AllocError, Global};

fn push_checked(to: &mut Said, checked: Result<Counts, TreeFault>) -> Pushed {
    match checked {
        Ok(counts) => {
            to.push("closed ");
            to.push_number(counts.closed);
            to.push_count(" open ", counts.left_open);
            Ok(())
        }
        Err(TreeFault::BadTree(place)) => {
            to.push_count("bad tree ", place);
            Ok(())
        }
        Err(TreeFault::NoMemory) => Err(AllocError),
    }
}

fn push_nodes(to: &mut Said, core: &Core, fault: &Fault, nodes: Vec<Node>, held: &str) -> Pushed
    requires line { IsLineOf core.now fault.now.line }
    requires decides { All (DecidesSignal core.now) nodes.items }
{
    if !is_one_tree(&nodes) {
        to.push("not one tree\n");
        return Ok(());
    }
    let tree = Tree::new(nodes);
    let holds = holds_of(to.alloc, core, held)?;
    push_checked(to, check_tree(to.alloc, core, fault, &tree, &holds))
}

/// `tree HOLDS FAULT: NODES`: whether the tree fits the fault, by the words of a certificate.
pub fn push_tree(to: &mut Said, core: &Core, args: &Args<'_>) -> Pushed {
    let (fault, nodes) = cut_at(args.behind, ": ");
    let Some(fault) = listed(core.netlist(), fault) else {
        to.push("no fault\n");
        return Ok(());
    };
    let nodes = nodes_of(to.alloc, core.netlist(), nodes)?;
    push_nodes(to, core, &fault, nodes, args.first)
}

/// So many decisions on one signal, and the ends below them.
fn deep(alloc: Global, netlist: &Netlist, name: &str, depth: u32) -> Result<Vec<Node>, AllocError>
    ensures { IfOk result (λ nodes. All (DecidesSignal netlist.now) nodes.items) }
{
    netlist.sound();
    let mut nodes = Vec::new(alloc);
    let Some(id) = signal(netlist, name) else {
        return Ok(nodes);
    };
    let depth = depth as usize;
    for k in 0..2 * depth + 1 {
        nodes.push(if k < depth {
            Node::Split(id)
        } else {
            Node::Closed
        })?;
    }
    Ok(nodes)
}

/// `deep-tree SIGNAL DEPTH FAULT`: whether a tree of so many decisions on one signal fits the fault.
pub fn push_deep_tree(to: &mut Said, core: &Core, args: &Args<'_>) -> Pushed {
    let Some(fault) = listed(core.netlist(), args.last) else {
        to.push("no fault\n");
        return Ok(());
    };
    let nodes = deep(to.alloc, core.netlist(), args.first, small(args.second))?;
    push_nodes(to, core, &fault, nodes, "-")
}
