//! Whether nodes are one tree.
ghost use Rattle.std.specs.Prelude.{◌≡◌, ◌+◌, ◌<◌, ◌^◌, ◌↔◌, IsTrue};
ghost use Rattle.redundancy_cert.specs.Trees.{IsOneTree};
ghost use Rattle.certificate.specs.inner.Pending.{still};

use redundancy_cert::Node;

/// How many trees are still to come behind a node that begins one of so many.
fn after(node: &Node, pending: usize) -> usize
    requires { pending + 2 < 2 ^ 64 }
    ensures { result ≡ still node.now pending }
{
    match node {
        Node::Closed | Node::Open => pending,
        Node::Split(_) => pending + 2,
        Node::Forced(_, _) => pending + 1,
    }
}

/// Whether the nodes are one tree in preorder.
pub fn is_one_tree(nodes: &[Node]) -> bool
    ensures { IsTrue result ↔ IsOneTree nodes.now }
{
    let mut pending = 1usize;
    for node in nodes {
        if pending == 0 {
            return false;
        }
        pending = after(node, pending - 1);
    }
    pending == 0
}
