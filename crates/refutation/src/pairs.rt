//! Sets of pairs of bits: which bits a signal may have without the fault and with it.
ghost use Rattle.std.specs.Prelude.{◌≡◌};
ghost use Rattle.refutation.specs.Pairs.{any_pair, faulty_is, good_is, meet, others, same};

/// Which pairs a signal may have, of its bit without the fault and its bit with it.
#[derive(Clone, Copy, PartialEq, Eq)]
pub struct Pairs {
    /// 0 and 0.
    pub zero: bool,
    /// 0 without the fault, and 1 with it.
    pub rises: bool,
    /// 1 without the fault, and 0 with it.
    pub falls: bool,
    /// 1 and 1.
    pub one: bool,
}

impl Pairs {
    /// Every pair.
    pub fn any() -> Pairs
        ensures { result ≡ any_pair }
    {
        Pairs {
            zero: true,
            rises: true,
            falls: true,
            one: true,
        }
    }

    /// The pairs of one bit twice.
    pub fn same() -> Pairs
        ensures { result ≡ same }
    {
        Pairs {
            zero: true,
            rises: false,
            falls: false,
            one: true,
        }
    }

    /// The pairs with this bit without the fault.
    pub fn good_is(bit: bool) -> Pairs
        ensures { result ≡ good_is bit }
    {
        Pairs {
            zero: !bit,
            rises: !bit,
            falls: bit,
            one: bit,
        }
    }

    /// The pairs with this bit with the fault.
    pub fn faulty_is(bit: bool) -> Pairs
        ensures { result ≡ faulty_is bit }
    {
        Pairs {
            zero: !bit,
            rises: bit,
            falls: !bit,
            one: bit,
        }
    }

    /// The pairs in both.
    pub fn meet(self, other: Pairs) -> Pairs
        ensures { result ≡ meet self other }
    {
        Pairs {
            zero: self.zero && other.zero,
            rises: self.rises && other.rises,
            falls: self.falls && other.falls,
            one: self.one && other.one,
        }
    }

    /// The pairs that aren't in it.
    pub fn others(self) -> Pairs
        ensures { result ≡ others self }
    {
        Pairs {
            zero: !self.zero,
            rises: !self.rises,
            falls: !self.falls,
            one: !self.one,
        }
    }
}
