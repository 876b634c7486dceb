//! Bits, where one line may be stuck.
ghost use Rattle.std.specs.Prelude.{◌≡◌, ◌≤◌, length};
ghost use Rattle.statement.specs.Values.{stuck, bits, conjunction, disjunction, parity, only};

use crate::equations::Definition;
use crate::rules::Logic;
use statement::{Fault, Kind, Line};

/// Bits, where one line may be stuck.
#[derive(Clone, Copy, PartialEq, Eq)]
pub struct Bits {
    pub fault: Option<Fault>,
}

/// What the bits on the pins are together.
#[derive(Drop)]
struct BitsTogether {
    all: bool,
    some: bool,
    odd: bool,
    first: bool,
}

/// What the bits on the pins of a gate are together.
fn gather(pins: &[bool]) -> BitsTogether
    ensures all { result.all ≡ conjunction pins.now }
    ensures some { result.some ≡ disjunction pins.now }
    ensures odd { result.odd ≡ parity pins.now }
    ensures first { result.first ≡ only pins.now }
{
    let mut all = true;
    let mut some = false;
    let mut odd = false;
    let mut first = false;
    for k in (0..pins.len()).rev() {
        let bit = pins[k];
        all = bit && all;
        some = bit || some;
        odd = bit != odd;
        first = bit;
    }
    BitsTogether {
        all,
        some,
        odd,
        first,
    }
}

impl Logic for Bits {
    type Value = bool;

    ghost rule = { λ b. bits b.fault };

    fn blank(&self) -> bool {
        false
    }

    fn line(&self, line: &Line, value: bool) -> bool {
        match &self.fault {
            None => value,
            Some(fault) => {
                if fault.line.is(line) {
                    fault.value
                } else {
                    value
                }
            }
        }
    }

    fn gate(&self, definition: &Definition, pins: &[bool]) -> bool {
        let pins = gather(pins);
        match definition.kind() {
            Kind::And => pins.all,
            Kind::Nand => !pins.all,
            Kind::Or => pins.some,
            Kind::Nor => !pins.some,
            Kind::Xor => pins.odd,
            Kind::Xnor => !pins.odd,
            Kind::Not => !pins.first,
            Kind::Buff | Kind::Dff => pins.first,
            Kind::Const0 => false,
            Kind::Const1 => true,
        }
    }
}
