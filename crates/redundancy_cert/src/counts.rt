//! How many nodes of a tree are Closed, and how many Open.
ghost use Rattle.std.specs.Prelude.{◌≡◌, ◌<◌, ◌+◌, ◌^◌, [], ◌∷◌};
ghost use Rattle.redundancy_cert.specs.Trees.{closed_count, open_count};

use crate::nodes::Node;

/// How many nodes of a tree are Closed, and how many Open.
#[derive(Clone, Copy, PartialEq, Eq)]
pub struct Counts {
    pub closed: u64,
    pub left_open: u64,
}

pub(crate) fn count_node(counts: &mut Counts, node: &Node)
    requires closed { counts.old.closed < 2 ^ 63 }
    requires left_open { counts.old.left_open < 2 ^ 63 }
    ensures closed { counts.new.closed ≡ counts.old.closed + closed_count (node.now ∷ []) }
    ensures left_open { counts.new.left_open ≡ counts.old.left_open + open_count (node.now ∷ []) }
{
    match node {
        Node::Closed => counts.closed += 1,
        Node::Open => counts.left_open += 1,
        Node::Split(_) => {}
        Node::Forced(_, _) => {}
    }
}
