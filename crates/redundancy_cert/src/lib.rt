//! Trees of decisions that show a fault redundant, and their independent check.
//!
//! Gives: `check_tree`, `Checker`, `Tree`, `end_side`, `whole_tree`.
//! Proved: `check_tree` and `Checker`, which serves many trees: exactly whether a tree fits a fault under held inputs, the first node that doesn't,
//! and its counts; the law: under a closed tree no pattern detects the fault; `end_side`, `whole_tree`: the tree of a search.
//! Tested: that it comes to these answers, by rows of `calls`, worked out by a plain program with the same rules of labels; closed trees by all
//! patterns too.
//! Neither: time.
#![tactic(auto)]

mod checking;
mod counts;
mod laws;
mod nodes;
mod observed;
mod passes;
mod stacks;
mod steps;
mod tallies;

pub use checking::{Checker, TreeFault, check_tree};
pub use counts::Counts;
pub use laws::closed_tree_is_redundant;
pub use nodes::{Node, Tree};
pub use stacks::{Other, Side, Turn, end_side, whole_tree};
