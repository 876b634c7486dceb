//! Small trees, and the tree of a search that gives up.
ghost use Rattle.std.specs.Prelude.{◌≡◌, [], ◌∷◌, IfOk};
ghost use Rattle.redundancy_cert.specs.Stacks.{stack_tree};

use netlist::SignalId;
use redundancy_cert::{Node, Side, whole_tree};
use std::alloc::{AllocError, Global};

/// The tree of one Closed.
pub fn closed_tree(alloc: Global) -> Result<Vec<Node>, AllocError>
    ensures { IfOk result (λ v. v.items ≡ Node.Closed ∷ []) }
{
    let mut nodes = Vec::new(alloc);
    nodes.push(Node::Closed)?;
    Ok(nodes)
}

/// The tree of a Forced and one Closed.
pub(crate) fn forced_tree(
    alloc: Global,
    signal: SignalId,
    bit: bool,
) -> Result<Vec<Node>, AllocError>
    ensures { IfOk result (λ v. v.items ≡ Node.Forced signal bit ∷ Node.Closed ∷ []) }
{
    let mut nodes = Vec::new(alloc);
    nodes.push(Node::Forced(signal, bit))?;
    nodes.push(Node::Closed)?;
    Ok(nodes)
}

/// The tree of one Open.
fn open_tree(alloc: Global) -> Result<Vec<Node>, AllocError>
    ensures { IfOk result (λ v. v.items ≡ Node.Open ∷ []) }
{
    let mut nodes = Vec::new(alloc);
    nodes.push(Node::Open)?;
    Ok(nodes)
}

/// The tree of a search that gives up: the end of its path is Open.
pub fn tree_so_far(alloc: Global, stack: Vec<Side>) -> Result<Vec<Node>, AllocError>
    ensures { IfOk result (λ v. v.items ≡ stack_tree stack.items (Node.Open ∷ [])) }
{
    let open = open_tree(alloc)?;
    whole_tree(alloc, stack, open)
}
