//! Four words side by side, and what a gate makes of them lane by lane.
ghost use Rattle.std.specs.Prelude.{◌≡◌, ◌<◌, ℕ, List, bit_and, bit_or, bit_xor, length, map, slice_index_or};
ghost use Rattle.std.specs.List.{All};
ghost use Rattle.netlist.specs.Settled.{at};
ghost use Rattle.events.specs.Words.{all_of, some_of, odd_of, only_of, gate_word, ones};
ghost use Rattle.regions.specs.Side.{lane_by_lane, lane_of, spread};

use netlist::{Kind, SignalId};

/// A word for each lane.
#[derive(Clone, Copy, PartialEq, Eq)]
pub struct Four {
    pub a: u64,
    pub b: u64,
    pub c: u64,
    pub d: u64,
}

/// One of the four.
#[derive(Clone, Copy, PartialEq, Eq)]
pub enum Lane {
    A,
    B,
    C,
    D,
}

impl Four {
    /// The same word in each lane.
    #[inline(always)]
    pub fn all(word: u64) -> Four
        ensures { result ≡ spread word }
    {
        Four {
            a: word,
            b: word,
            c: word,
            d: word,
        }
    }

    /// The word of a lane.
    #[inline(always)]
    pub fn of(&self, lane: Lane) -> u64
        ensures { result ≡ lane_of lane self.now }
    {
        match lane {
            Lane::A => self.a,
            Lane::B => self.b,
            Lane::C => self.c,
            Lane::D => self.d,
        }
    }

    #[inline(always)]
    pub(crate) fn and(self, other: Four) -> Four
        ensures { result ≡ record { a = bit_and self.a other.a; b = bit_and self.b other.b; c = bit_and self.c other.c; d = bit_and self.d other.d } }
    {
        Four {
            a: self.a & other.a,
            b: self.b & other.b,
            c: self.c & other.c,
            d: self.d & other.d,
        }
    }

    #[inline(always)]
    pub(crate) fn or(self, other: Four) -> Four
        ensures { result ≡ record { a = bit_or self.a other.a; b = bit_or self.b other.b; c = bit_or self.c other.c; d = bit_or self.d other.d } }
    {
        Four {
            a: self.a | other.a,
            b: self.b | other.b,
            c: self.c | other.c,
            d: self.d | other.d,
        }
    }

    #[inline(always)]
    pub(crate) fn xor(self, other: Four) -> Four
        ensures { result ≡ record { a = bit_xor self.a other.a; b = bit_xor self.b other.b; c = bit_xor self.c other.c; d = bit_xor self.d other.d } }
    {
        Four {
            a: self.a ^ other.a,
            b: self.b ^ other.b,
            c: self.c ^ other.c,
            d: self.d ^ other.d,
        }
    }
}

/// Words on the pins of a gate, by place.
pub(crate) trait FourPins {
    ghost use Rattle.regions.specs.declared.fours.Four.{Four};

    ghost fours: { Self → List Four };

    fn count(&self) -> usize
        ensures { result ≡ length (fours self.now) };

    fn four(&self, place: usize) -> Four
        requires { place < length (fours self.now) }
        ensures { slice_index_or (fours self.now) place result ≡ result };
}

/// As they are given.
#[derive(Drop)]
pub(crate) struct Given<'a> {
    pub pins: &'a [Four],
}

/// Of the signals that the pins read.
#[derive(Drop)]
pub(crate) struct Free<'a> {
    pub pins: &'a [SignalId],
    pub values: &'a [Four],
    ghost below: { All (λ x. x < length values.now) pins.now },
}

impl FourPins for Given<'_> {
    ghost fours = { λ p. p.pins.now };

    #[inline(always)]
    fn count(&self) -> usize {
        self.pins.len()
    }

    #[inline(always)]
    fn four(&self, place: usize) -> Four {
        self.pins[place]
    }
}

impl FourPins for Free<'_> {
    ghost fours = { λ p. map (at p.values.now (record { a = 0; b = 0; c = 0; d = 0 })) p.pins.now };

    #[inline(always)]
    fn count(&self) -> usize {
        self.pins.len()
    }

    #[inline(always)]
    fn four(&self, place: usize) -> Four {
        self.values[self.pins[place].index()]
    }
}

#[inline(always)]
fn all_of<P: FourPins>(pins: &P) -> Four
    ensures { result ≡ lane_by_lane all_of (P.fours pins.now) }
{
    let mut all = Four::all(u64::MAX);
    for k in (0..pins.count()).rev() {
        all = pins.four(k).and(all);
    }
    all
}

#[inline(always)]
fn some_of<P: FourPins>(pins: &P) -> Four
    ensures { result ≡ lane_by_lane some_of (P.fours pins.now) }
{
    let mut some = Four::all(0);
    for k in (0..pins.count()).rev() {
        some = pins.four(k).or(some);
    }
    some
}

#[inline(always)]
fn odd_of<P: FourPins>(pins: &P) -> Four
    ensures { result ≡ lane_by_lane odd_of (P.fours pins.now) }
{
    let mut odd = Four::all(0);
    for k in (0..pins.count()).rev() {
        odd = pins.four(k).xor(odd);
    }
    odd
}

#[inline(always)]
fn only_of<P: FourPins>(pins: &P) -> Four
    ensures { result ≡ lane_by_lane only_of (P.fours pins.now) }
{
    if pins.count() == 0 {
        Four::all(0)
    } else {
        pins.four(0)
    }
}

/// What a gate makes of the words on its pins.
#[inline(always)]
pub(crate) fn four_of<P: FourPins>(kind: Kind, pins: &P) -> Four
    ensures { result ≡ lane_by_lane (gate_word kind) (P.fours pins.now) }
{
    let turn = Four::all(u64::MAX);
    match kind {
        Kind::And => all_of(pins),
        Kind::Nand => all_of(pins).xor(turn),
        Kind::Or => some_of(pins),
        Kind::Nor => some_of(pins).xor(turn),
        Kind::Xor => odd_of(pins),
        Kind::Xnor => odd_of(pins).xor(turn),
        Kind::Not => only_of(pins).xor(turn),
        Kind::Buff | Kind::Dff => only_of(pins),
        Kind::Const0 => Four::all(0),
        Kind::Const1 => turn,
    }
}
