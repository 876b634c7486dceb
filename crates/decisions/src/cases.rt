//! What a search is about.
use netlist::{Core, Fault, Holds};

/// A fault of a netlist under held inputs: one value for what stays the same from the beginning of a search to its end. Nothing is promised of the
/// three together: a search that needs the held inputs to be this netlist's asks for that.
#[derive(Clone, Copy)]
pub struct Case<'c, 'h> {
    pub core: &'c Core,
    pub fault: Fault,
    pub holds: &'h Holds,
}
