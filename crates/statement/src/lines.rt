//! Lines, stuck-at faults and observed points.
ghost use Rattle.std.specs.Prelude.{◌≡◌};
ghost use Rattle.statement.specs.Values.{is_line};

use crate::signals::SignalId;

/// A line: a stem, or a branch at a pin of a definition (from 0) or at an output.
#[derive(Clone, Copy, PartialEq, Eq)]
pub enum Line {
    Stem(SignalId),
    Pin(SignalId, u32),
    Out(SignalId),
}

impl Line {
    /// Whether both are one stem, one pin or one output.
    pub fn is(&self, other: &Line) -> bool
        ensures { result ≡ is_line self.now other.now }
    {
        match self {
            Line::Stem(x) => match other {
                Line::Stem(y) => x.index() == y.index(),
                _ => false,
            },
            Line::Pin(x, j) => match other {
                Line::Pin(y, k) => x.index() == y.index() && *j == *k,
                _ => false,
            },
            Line::Out(x) => match other {
                Line::Out(y) => x.index() == y.index(),
                _ => false,
            },
        }
    }
}

/// A line stuck at a value.
#[derive(Clone, Copy, PartialEq, Eq)]
pub struct Fault {
    pub line: Line,
    pub value: bool,
}

/// Where a tester sees a value: at an output, or at a cell's pin, each by its place in the order of outputs or of cells.
#[derive(Clone, Copy, PartialEq, Eq)]
pub enum Point {
    Output(u32),
    Cell(u32),
}
