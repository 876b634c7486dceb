//! Three values as a rule of settled values, where one line may be stuck.
ghost use Rattle.std.specs.Prelude.{◌≡◌};
ghost use Rattle.tri.specs.Settled.{tris};

use crate::gates::gate;
use crate::together::known;
use netlist::{Definition, Fault, Line, Logic, Tri};

/// Three values, where one line may be stuck.
#[derive(Clone, Copy, PartialEq, Eq)]
pub struct Tris {
    pub fault: Option<Fault>,
}

impl Logic for Tris {
    type Value = Tri;

    ghost rule = { λ t. tris t.fault };

    fn blank(&self) -> Tri {
        Tri::X
    }

    fn line(&self, line: &Line, value: Tri) -> Tri {
        match &self.fault {
            None => value,
            Some(fault) => {
                if fault.line.is(line) {
                    known(fault.value)
                } else {
                    value
                }
            }
        }
    }

    fn gate(&self, definition: &Definition, pins: &[Tri]) -> Tri {
        gate(definition.kind(), pins)
    }
}
