//! The values on the pins of a gate, by place: as they are given, read from the values of all signals, or read where lines are stuck.
ghost use Rattle.std.specs.Prelude.{◌≡◌, ◌<◌, ◌≤◌, List, length, map, slice_index_or};
ghost use Rattle.std.specs.List.{All};
ghost use Rattle.netlist.specs.Gates.{most_pins};
ghost use Rattle.statement.specs.Values.{on_pins};
ghost use Rattle.netlist.specs.Settled.{at};
ghost use Rattle.lane_play.specs.inner.Lanes.{all_of, some_of, odd_of, only_of, gate_lanes, lanes_rule, unknown};
ghost use Rattle.lane_play.specs.inner.Spans.{IsSpanned};
ghost use Rattle.lane_play.specs.declared.packed.Lanes.{Lanes as Packed};

use crate::packed::Lanes;
use crate::spans::{Span, forced};
use netlist::{Fault, Kind, Line, SignalId};

/// Values by place.
pub(crate) trait Pins {
    ghost values: { Self → List Packed };

    fn count(&self) -> usize
        ensures { result ≡ length (values self.now) };

    fn value(&self, place: usize) -> Lanes
        requires { place < length (values self.now) }
        ensures { result ≡ slice_index_or (values self.now) place result };
}

/// Values as they are given.
#[derive(Drop)]
pub(crate) struct Given<'a> {
    pub pins: &'a [Lanes],
}

/// Values of the signals that the pins read.
#[derive(Drop)]
pub(crate) struct Free<'a> {
    pub pins: &'a [SignalId],
    pub values: &'a [Lanes],
    ghost below: { All (λ x. x < length values.now) pins.now },
}

/// The same, where lines may be stuck in the machines of a span.
#[derive(Drop)]
pub(crate) struct Forced<'a> {
    pub faults: &'a [Fault],
    pub span: Span,
    pub id: SignalId,
    pub pins: &'a [SignalId],
    pub values: &'a [Lanes],
    ghost below: { All (λ x. x < length values.now) pins.now },
    ghost few: { length pins.now ≤ most_pins },
    ghost machines: { length faults.now ≤ 128 },
    ghost some: { span.from < span.to },
    ghost spanned: { IsSpanned faults.now (length faults.now) id span },
}

impl Pins for Given<'_> {
    ghost values = { λ p. p.pins.now };

    #[inline(always)]
    fn count(&self) -> usize {
        self.pins.len()
    }

    #[inline(always)]
    fn value(&self, place: usize) -> Lanes {
        self.pins[place]
    }
}

impl Pins for Free<'_> {
    ghost values = { λ p. map (at p.values.now unknown) p.pins.now };

    #[inline(always)]
    fn count(&self) -> usize {
        self.pins.len()
    }

    #[inline(always)]
    fn value(&self, place: usize) -> Lanes {
        self.values[self.pins[place].index()]
    }
}

impl Pins for Forced<'_> {
    ghost values = { λ p. on_pins (lanes_rule p.faults.now) p.id 0 (map (at p.values.now unknown) p.pins.now) };

    #[inline(always)]
    fn count(&self) -> usize {
        self.pins.len()
    }

    #[inline(always)]
    fn value(&self, place: usize) -> Lanes {
        let value = self.values[self.pins[place].index()];
        forced(
            self.faults,
            self.span,
            &Line::Pin(self.id, place as u32),
            value,
        )
    }
}

#[inline(always)]
fn all_of<P: Pins>(pins: &P) -> Lanes
    ensures { result ≡ all_of (P.values pins.now) }
{
    let mut all = Lanes::always(true);
    for k in (0..pins.count()).rev() {
        all = pins.value(k).both(all);
    }
    all
}

#[inline(always)]
fn some_of<P: Pins>(pins: &P) -> Lanes
    ensures { result ≡ some_of (P.values pins.now) }
{
    let mut some = Lanes::always(false);
    for k in (0..pins.count()).rev() {
        some = pins.value(k).either(some);
    }
    some
}

#[inline(always)]
fn odd_of<P: Pins>(pins: &P) -> Lanes
    ensures { result ≡ odd_of (P.values pins.now) }
{
    let mut odd = Lanes::always(false);
    for k in (0..pins.count()).rev() {
        odd = pins.value(k).unequal(odd);
    }
    odd
}

#[inline(always)]
fn only_of<P: Pins>(pins: &P) -> Lanes
    ensures { result ≡ only_of (P.values pins.now) }
{
    if pins.count() == 0 {
        Lanes::always(false)
    } else {
        pins.value(0)
    }
}

/// What a gate makes of the values on its pins.
#[inline(always)]
pub(crate) fn gate_of<P: Pins>(kind: Kind, pins: &P) -> Lanes
    ensures { result ≡ gate_lanes kind (P.values pins.now) }
{
    match kind {
        Kind::And => all_of(pins),
        Kind::Nand => all_of(pins).opposite(),
        Kind::Or => some_of(pins),
        Kind::Nor => some_of(pins).opposite(),
        Kind::Xor => odd_of(pins),
        Kind::Xnor => odd_of(pins).opposite(),
        Kind::Not => only_of(pins).opposite(),
        Kind::Buff | Kind::Dff => only_of(pins),
        Kind::Const0 => Lanes::always(false),
        Kind::Const1 => Lanes::always(true),
    }
}
