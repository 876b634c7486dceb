//! How 128 machines settle side by side, each with its own stuck line.
ghost use Rattle.std.specs.Prelude.{◌≡◌, ◌<◌, ◌≤◌, IfOk, length, map};
ghost use Rattle.std.specs.List.{All};
ghost use Rattle.netlist.specs.Gates.{most_pins};
ghost use Rattle.netlist.specs.Settled.{at};
ghost use Rattle.statement.specs.Values.{on_pins};
ghost use Rattle.lane_play.specs.inner.Lanes.{gate_lanes, lanes_rule, unknown};
ghost use Rattle.lane_play.specs.inner.Spans.{AreSpans, IsSpanned};

use crate::packed::Lanes;
use crate::pins::{Forced, Free, Given, gate_of};
use crate::spans::{Span, forced, signal_of, spans_of};
use netlist::{Definition, Fault, Kind, Line, Logic, SignalId};
use std::alloc::{AllocError, Global};

/// The faults of up to 128 machines.
#[derive(Drop)]
pub(crate) struct Stuck<'a> {
    pub faults: &'a [Fault],
    pub spans: Vec<Span>,
    pub ghost few: { length faults.now ≤ 128 },
    pub ghost spanned: { AreSpans faults.now (length faults.now) spans.items },
}

impl<'a> Stuck<'a> {
    /// The faults of machines that have so many signals.
    pub(crate) fn new(
        alloc: Global,
        faults: &'a [Fault],
        count: usize,
    ) -> Result<Stuck<'a>, AllocError>
        requires { length faults.now ≤ 128 }
        ensures faults { IfOk result (λ s. s.faults.now ≡ faults.now) }
        ensures size { IfOk result (λ s. length s.spans.items ≡ count) }
    {
        let spans = spans_of(alloc, faults, count)?;
        Ok(Stuck { faults, spans })
    }

    /// The machines that may be stuck at a line that a signal names.
    #[inline(always)]
    fn span(&self, x: SignalId) -> Span
        ensures { IsSpanned self.now.faults.now (length self.now.faults.now) x result }
    {
        match self.spans.get(x.index()) {
            Some(span) => *span,
            None => Span {
                from: 0,
                to: self.faults.len() as u32,
            },
        }
    }

    /// What a gate's stem makes of what it makes of its pins, which read these values of all signals.
    #[inline(always)]
    pub(crate) fn made(
        &self,
        id: SignalId,
        kind: Kind,
        pins: &[SignalId],
        values: &[Lanes],
    ) -> Lanes
        requires below { All (λ x. x < length values.now) pins.now }
        requires few { length pins.now ≤ most_pins }
        ensures { result ≡ (lanes_rule self.now.faults.now).line (Line.Stem id) (gate_lanes kind (on_pins (lanes_rule self.now.faults.now) id 0 (map (at values.now unknown) pins.now))) }
    {
        let span = self.span(id);
        if span.is_empty() {
            return gate_of(kind, &Free { pins, values });
        }
        made_forced(self.faults, span, id, kind, pins, values)
    }
}

/// The same, where lines that the gate names may be stuck in some machines.
#[inline(never)]
fn made_forced(
    faults: &[Fault],
    span: Span,
    id: SignalId,
    kind: Kind,
    pins: &[SignalId],
    values: &[Lanes],
) -> Lanes
    requires machines { length faults.now ≤ 128 }
    requires some { span.from < span.to }
    requires spanned { IsSpanned faults.now (length faults.now) id span }
    requires below { All (λ x. x < length values.now) pins.now }
    requires few { length pins.now ≤ most_pins }
    ensures { result ≡ (lanes_rule faults.now).line (Line.Stem id) (gate_lanes kind (on_pins (lanes_rule faults.now) id 0 (map (at values.now unknown) pins.now))) }
{
    let made = gate_of(
        kind,
        &Forced {
            faults,
            span,
            id,
            pins,
            values,
        },
    );
    forced(faults, span, &Line::Stem(id), made)
}

impl Logic for Stuck<'_> {
    type Value = Lanes;

    ghost rule = { λ s. lanes_rule s.faults.now };

    fn blank(&self) -> Lanes {
        Lanes::unknown()
    }

    #[inline(always)]
    fn line(&self, line: &Line, value: Lanes) -> Lanes {
        let span = self.span(signal_of(line));
        if span.is_empty() {
            return value;
        }
        forced(self.faults, span, line, value)
    }

    fn gate(&self, definition: &Definition, pins: &[Lanes]) -> Lanes {
        gate_of(definition.kind(), &Given { pins })
    }
}
