//! The patterns under which one pin of a gate at least, and two at least, have the controlling value. A change of a pin passes the gate where no
//! other pin has it, and these two words tell that of each pin by its own word alone. (To go over the other pins for each pin takes the square
//! of their number: a million steps for the widest gate.)
ghost use Rattle.std.specs.Prelude.{◌≡◌, ◌<◌, length, bit_and, bit_or, bit_xor};
ghost use Rattle.std.specs.List.{All};
ghost use Rattle.events.specs.Words.{ones};
ghost use Rattle.regions.specs.inner.Controlled.{AreControlled};

use crate::passing::noncontrolling;
use netlist::{Kind, SignalId};

/// Where one pin has the controlling value, and where two have.
#[derive(Clone, Copy)]
pub(crate) struct Controlling {
    pub one: u64,
    pub two: u64,
}

impl Controlling {
    /// With one pin more.
    #[inline(always)]
    fn with(self, controls: u64) -> Controlling
        ensures one { result.one ≡ bit_or controls self.one }
        ensures two { result.two ≡ bit_or (bit_and controls self.one) self.two }
    {
        Controlling {
            one: controls | self.one,
            two: (controls & self.one) | self.two,
        }
    }

    /// Of the pins of a gate.
    #[inline(always)]
    pub(crate) fn of(kind: Kind, pins: &[SignalId], values: &[u64]) -> Controlling
        requires below { All (λ x. x < length values.now) pins.now }
        ensures { AreControlled kind pins.now values.now result.one result.two }
    {
        let mut controlling = Controlling { one: 0, two: 0 };
        for k in (0..pins.len()).rev() {
            let side = noncontrolling(kind, values[pins[k].index()]);
            controlling = controlling.with(side ^ u64::MAX);
        }
        controlling
    }

    /// Where no other pin has it: the pin's own word says where it hasn't.
    #[inline(always)]
    pub(crate) fn passing(self, side: u64) -> u64
        ensures { result ≡ bit_xor (bit_or self.two (bit_and self.one side)) ones }
    {
        (self.two | (self.one & side)) ^ u64::MAX
    }
}
