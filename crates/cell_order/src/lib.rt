//! Orders of a netlist's cells: a text with a line for each chain, the names of its cells in order.
//!
//! The cells of a netlist are dealt to chains in the order in which they stand, as evenly as they can be. So an order is one of all cells, and its lines
//! are as long as so many cells are dealt: then a netlist with its cells in this order has these chains.
//!
//! Gives: `read_order`, `Order`, `OrderFault`, `OrderRefusal`, `write_ordered`; the laws `chains_are_given`, `own_order`.
//! Proved: `read_order`: exactly the cells that the text names, each of the netlist's once, or the first cause against it; dealt to so many chains as the
//! text has lines, the cells are in its chains; `write_ordered`: the text of the netlist whose cells are put in an order; in its own order that is its
//! canonical text.
//! Neither: time.
#![tactic(auto)]

mod grammar;
mod laws;
mod marks;
mod naming;
mod reading;
mod refusal;
mod writing;

pub use laws::{chains_are_given, own_order};
pub use reading::{Order, read_order};
pub use refusal::{OrderFault, OrderRefusal};
pub use writing::write_ordered;
