//! Trees of decisions by their texts, in the words of a certificate.
ghost use Rattle.std.specs.Prelude.{IfOk, IfSome};
ghost use Rattle.std.specs.List.{All};
ghost use Rattle.redundancy_cert.specs.Trees.{DecidesSignal};

use crate::names::{name_of, signal};
use case_text::cut;
use netlist::Netlist;
use redundancy_cert::{Node, Tree};
use std::alloc::{AllocError, Global};

/// The node that a text begins with.
fn node_of(netlist: &Netlist, text: &str) -> Option<Node>
    ensures { IfSome result (DecidesSignal netlist.now) }
{
    netlist.sound();
    let (word, rest) = cut(text);
    let (name, bit) = cut(rest);
    match word {
        "!" => Some(Node::Closed),
        "?" => Some(Node::Open),
        "S" => Some(Node::Split(signal(netlist, name)?)),
        "F" => Some(Node::Forced(signal(netlist, name)?, bit.starts_with('1'))),
        _ => None,
    }
}

/// What stands behind the node that a text begins with.
fn behind<'a>(node: &Node, text: &'a str) -> &'a str {
    let (_, rest) = cut(text);
    match node {
        Node::Closed | Node::Open => rest,
        Node::Split(_) => cut(rest).1,
        Node::Forced(_, _) => cut(cut(rest).1).1,
    }
}

/// The nodes of a text, up to the first word that begins none.
pub fn nodes_of(alloc: Global, netlist: &Netlist, text: &str) -> Result<Vec<Node>, AllocError>
    ensures { IfOk result (λ nodes. All (DecidesSignal netlist.now) nodes.items) }
{
    let mut nodes = Vec::new(alloc);
    let mut rest = text;
    for _ in 0..text.len() {
        let Some(node) = node_of(netlist, rest) else {
            return Ok(nodes);
        };
        nodes.push(node)?;
        rest = behind(&node, rest);
    }
    Ok(nodes)
}

/// Adds a node as a certificate has it.
fn push_node(to: &mut Vec<u8>, netlist: &Netlist, node: &Node) -> Result<(), AllocError> {
    match node {
        Node::Closed => to.extend_from_slice(b" !"),
        Node::Open => to.extend_from_slice(b" ?"),
        Node::Split(id) => {
            to.extend_from_slice(b" S ")?;
            to.extend_from_slice(name_of(netlist, *id))
        }
        Node::Forced(id, bit) => {
            to.extend_from_slice(b" F ")?;
            to.extend_from_slice(name_of(netlist, *id))?;
            to.extend_from_slice(if *bit { b" 1" } else { b" 0" })
        }
    }
}

/// Adds a word and a tree, and ends the line.
pub fn push_tree(
    to: &mut Vec<u8>,
    netlist: &Netlist,
    word: &[u8],
    tree: &Tree,
) -> Result<(), AllocError> {
    to.extend_from_slice(word)?;
    for node in tree.nodes() {
        push_node(to, netlist, node)?;
    }
    to.push(b'\n')?;
    Ok(())
}
