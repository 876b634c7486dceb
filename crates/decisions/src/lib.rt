//! The decisions of a search: what guides the next one, and those that were made, as a stack that stands for a tree. (Goel, An implicit
//! enumeration algorithm to generate tests, 1981.)
//!
//! A search goes along one path of a tree of decisions. The stack has the decisions of that path, the first one first, and of each what is known of
//! its other side: nothing, its tree, or that its label is closed. So the stack is a whole tree at any time, in which the end of the path and each
//! side that is untried are Open. A decision more is pushed. Where a path ends, the decisions after the last untried side become one tree with what
//! stands there, and the search goes on at that side; where no side is untried that tree is the whole one.
//!
//! The alternative is a function that calls itself for both sides. It is shorter, but its depth is that of the path; and a search that gives up has
//! no tree then, as what it knows of other sides lies in the calls that it leaves.
//!
//! What guides is how dear each bit is to set and to see, what can be read of labels, and where the fault's effect has come to. No answer rests
//! on it, only how soon it comes: where it tells less than it could, a search goes on for longer.
//!
//! Gives: `Case`, `Step`, `push`, `climb`, `close_both`, `closed_tree`, `tree_so_far`, `one_if`; `Measures`, `Effects`, `Aim`; `Orders`, `Places` and `By`: the pins of wide
//! gates in the orders in which they are gone to; what guides read of a netlist and its labels, and `mixed`, `salt_of`, `hash_in`: numbers by a hash.
//! Proved: `climb`, `close_both`: at which decision the search goes on and with which tree beside it, or the whole tree, exactly, with the labels of the
//! path there; the others exactly; the lemmas: whatever a search asks of the nodes of its tree stays so, and no tree on so many signals has more ends
//! than 2 to their number; what guides has no contract but that its calls are safe.
//! Tested: run below `podem` and `fan` in `calls`.
//! Neither: how dear bits are, and where the effect is: only the speed of a search rests on it.
#![tactic(auto)]

mod cases;
mod climbing;
mod effects;
mod measures;
mod orders;
mod salts;
mod trees;
mod turns;
mod views;

pub use cases::Case;
pub use climbing::climb;
pub use effects::Effects;
pub use measures::Measures;
pub use orders::{By, Orders, Places};
pub use salts::{hash_in, mixed, salt_of};
pub use trees::{closed_tree, tree_so_far};
pub use turns::{Step, close_both, one_if, push};
pub use views::{
    Aim, count_pins, excitation, gate_of, good, has_effect, is_inverting, is_own_unknown,
    is_unknown, may_differ, may_get_effect, place_of, readers, signal_count,
};
