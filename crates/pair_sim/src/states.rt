//! What a simulation answers.
use netlist::Point;

/// Where a path of decisions stands.
#[derive(Clone, Copy, PartialEq, Eq)]
pub enum State {
    /// No decision is contradicted, and this is the first point whose two values are known and differ.
    Test(Point),
    /// The label is closed: a decision is contradicted, or no observed point may differ.
    Blocked,
    Going,
}
