//! Three values of 128 machines, side by side in two sets of bits. (Parallel fault simulation: Seshu, 1965.)
//!
//! One says which values are known and one which bits they are. With "can be 0" and "can be 1" a gate would cost an operation less,
//! but then a pair of bits would have no meaning, and each contract would have to exclude it.
ghost use Rattle.std.specs.Prelude.{◌≡◌, ◌<◌, true};
ghost use Rattle.lane_play.specs.inner.Lanes.{both, either, unequal, opposite, always, unknown, with_lane, lane};

use crate::bits::Bits;
use netlist::Tri;

/// The value of machine k is known where bit k of `known` is 1, and then it is bit k of `value`.
#[derive(Clone, Copy, PartialEq, Eq)]
pub(crate) struct Lanes {
    pub known: Bits,
    pub value: Bits,
}

impl Lanes {
    /// Every machine has this bit.
    #[inline(always)]
    pub(crate) fn always(bit: bool) -> Lanes
        ensures { result ≡ always bit }
    {
        Lanes {
            known: Bits::all(),
            value: if bit { Bits::all() } else { Bits::none() },
        }
    }

    /// Of no machine anything is known.
    pub(crate) fn unknown() -> Lanes
        ensures { result ≡ unknown }
    {
        Lanes {
            known: Bits::none(),
            value: Bits::none(),
        }
    }

    /// AND: known where both are, or where one is known to be 0.
    #[inline(always)]
    pub(crate) fn both(self, other: Lanes) -> Lanes
        ensures { result ≡ both self other }
    {
        let mine = self.known.and(self.value.opposite());
        let others = other.known.and(other.value.opposite());
        Lanes {
            known: self.known.and(other.known).or(mine.or(others)),
            value: self.value.and(other.value),
        }
    }

    /// OR: known where both are, or where one is known to be 1.
    #[inline(always)]
    pub(crate) fn either(self, other: Lanes) -> Lanes
        ensures { result ≡ either self other }
    {
        let mine = self.known.and(self.value);
        let others = other.known.and(other.value);
        Lanes {
            known: self.known.and(other.known).or(mine.or(others)),
            value: self.value.or(other.value),
        }
    }

    /// XOR: known where both are.
    #[inline(always)]
    pub(crate) fn unequal(self, other: Lanes) -> Lanes
        ensures { result ≡ unequal self other }
    {
        Lanes {
            known: self.known.and(other.known),
            value: self.value.xor(other.value),
        }
    }

    /// The other bits.
    #[inline(always)]
    pub(crate) fn opposite(self) -> Lanes
        ensures { result ≡ opposite self }
    {
        Lanes {
            known: self.known,
            value: self.value.opposite(),
        }
    }

    /// A machine's value becomes a bit.
    pub(crate) fn with(self, k: usize, bit: bool) -> Lanes
        requires { k < 128 }
        ensures { result ≡ with_lane k bit self }
    {
        Lanes {
            known: self.known.with(k, true),
            value: self.value.with(k, bit),
        }
    }

    /// The value of a machine.
    pub(crate) fn lane(self, k: usize) -> Tri
        requires { k < 128 }
        ensures { result ≡ lane k self }
    {
        if !self.known.has(k) {
            Tri::X
        } else if self.value.has(k) {
            Tri::One
        } else {
            Tri::Zero
        }
    }
}
