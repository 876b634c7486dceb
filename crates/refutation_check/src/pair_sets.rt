//! What gates make of sets of pairs.
ghost use Rattle.std.specs.Prelude.{◌≡◌, ◌↔◌, ◌&&◌, ◌||◌, IsTrue};
ghost use Rattle.refutation.specs.Pairs.{AreApart, has, meet, only_pair};
ghost use Rattle.refutation_check.specs.inner.Images.{beside, both, either, has_some, inverted, odd, stuck_pairs};

use refutation::Pairs;

fn or(one: bool, other: bool) -> bool
    ensures { result ≡ (one || other) }
{
    one || other
}

/// Whether both of the first two are so, or both of the others.
fn crossed(a: bool, b: bool, c: bool, d: bool) -> bool
    ensures { result ≡ ((a && b) || (c && d)) }
{
    a && b || c && d
}

pub(crate) fn has_some(set: Pairs) -> bool
    ensures { result ≡ has_some set }
{
    set.zero || set.rises || set.falls || set.one
}

/// Whether the pair is in it.
pub(crate) fn is_in(set: Pairs, good: bool, faulty: bool) -> bool
    ensures { result ≡ has set (record { good = good; faulty = faulty }) }
{
    match (good, faulty) {
        (false, false) => set.zero,
        (false, true) => set.rises,
        (true, false) => set.falls,
        (true, true) => set.one,
    }
}

/// The pair alone.
pub(crate) fn only(good: bool, faulty: bool) -> Pairs
    ensures { result ≡ only_pair (record { good = good; faulty = faulty }) }
{
    Pairs {
        zero: !good && !faulty,
        rises: !good && faulty,
        falls: good && !faulty,
        one: good && faulty,
    }
}

/// Whether no pair is in both.
pub(crate) fn is_apart(one: Pairs, other: Pairs) -> bool
    ensures { IsTrue result ↔ AreApart one other }
{
    !has_some(one.meet(other))
}

/// Whether each pair of the one is in the other.
pub(crate) fn is_within(one: Pairs, other: Pairs) -> bool
    ensures { IsTrue result ↔ (meet one other ≡ one) }
{
    !has_some(one.meet(other.others()))
}

pub(crate) fn may_differ(set: Pairs) -> bool
    ensures { result ≡ (set.rises || set.falls) }
{
    set.rises || set.falls
}

/// The complements.
pub(crate) fn inverted(set: Pairs) -> Pairs
    ensures { result ≡ inverted set }
{
    Pairs {
        zero: set.one,
        rises: set.falls,
        falls: set.rises,
        one: set.zero,
    }
}

/// What an AND makes of a pair from each.
pub(crate) fn both(one: Pairs, other: Pairs) -> Pairs
    ensures { result ≡ both one other }
{
    let zero = one.zero && has_some(other) || other.zero && has_some(one);
    Pairs {
        zero: zero || one.rises && other.falls || one.falls && other.rises,
        rises: one.rises && (other.rises || other.one) || one.one && other.rises,
        falls: one.falls && (other.falls || other.one) || one.one && other.falls,
        one: one.one && other.one,
    }
}

/// What an OR makes of a pair from each.
pub(crate) fn either(one: Pairs, other: Pairs) -> Pairs
    ensures { result ≡ either one other }
{
    inverted(both(inverted(one), inverted(other)))
}

/// What an XOR makes of a pair from each.
pub(crate) fn odd(one: Pairs, other: Pairs) -> Pairs
    ensures { result ≡ odd one other }
{
    let zeros = crossed(one.zero, other.zero, one.one, other.one);
    let zeros_too = crossed(one.rises, other.rises, one.falls, other.falls);
    let rising = crossed(one.zero, other.rises, one.rises, other.zero);
    let rising_too = crossed(one.one, other.falls, one.falls, other.one);
    let falling = crossed(one.zero, other.falls, one.falls, other.zero);
    let falling_too = crossed(one.one, other.rises, one.rises, other.one);
    let ones = crossed(one.zero, other.one, one.one, other.zero);
    let ones_too = crossed(one.rises, other.falls, one.falls, other.rises);
    Pairs {
        zero: or(zeros, zeros_too),
        rises: or(rising, rising_too),
        falls: or(falling, falling_too),
        one: or(ones, ones_too),
    }
}

/// It, where the other has a pair.
pub(crate) fn beside(one: Pairs, other: Pairs) -> Pairs
    ensures { result ≡ beside one other }
{
    if has_some(other) {
        one
    } else {
        Pairs {
            zero: false,
            rises: false,
            falls: false,
            one: false,
        }
    }
}

/// On a line that is stuck at the bit.
pub(crate) fn stuck(set: Pairs, bit: bool) -> Pairs
    ensures { result ≡ stuck_pairs bit set }
{
    let low = set.zero || set.rises;
    let high = set.falls || set.one;
    Pairs {
        zero: !bit && low,
        rises: bit && low,
        falls: !bit && high,
        one: bit && high,
    }
}
