//! Held inputs: pins that the tester ties to a bit throughout.
ghost use Rattle.std.specs.Prelude.{◌≡◌, ◌<◌, length, IfOk, Some, slice_get, slice_set};
ghost use Rattle.netlist.specs.Holds.{none_held};

use crate::evaluation::Core;
use crate::no_memory::NoMemory;
use std::alloc::Global;
use std::marker::Model;

/// For each input, in order, the bit at which it is held, if any.
#[derive(Drop)]
pub struct Holds {
    bits: Vec<Option<bool>>,
}

impl Model for Holds {
    ghost use Rattle.std.specs.Prelude.{List, Option, Bool};

    ghost Value = { List (Option Bool) };

    ghost view = { λ h. h.bits.items };
}

impl Holds {
    /// No input is held.
    pub fn none(alloc: Global, core: &Core) -> Result<Holds, NoMemory>
        ensures { IfOk result (λ h. h ≡ none_held core.now) }
    {
        let bits = core.netlist().inputs().iter().map(|_| None).collect(alloc)?;
        Ok(Holds { bits })
    }

    /// Holds an input at a bit.
    pub fn set(&mut self, input: u32, bit: bool)
        requires { input < length self.old }
        ensures { self.new ≡ slice_set self.old input (Some bit) }
    {
        self.bits[input as usize] = Some(bit);
    }

    /// The bit at which an input is held; None where it isn't.
    pub fn held(&self, input: u32) -> Option<bool>
        requires { input < length self.now }
        ensures { slice_get self.now input ≡ Some result }
    {
        self.bits[input as usize]
    }
}
