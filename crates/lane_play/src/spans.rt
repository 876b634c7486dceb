//! Which machines may be stuck at the lines that a signal names.
//!
//! For each signal a span of machines is kept outside of which none is. Where it is empty, as nearly everywhere, nothing is asked; else its few
//! machines are walked. A mask for each line would spare the walk, for a table as long as all pins.
ghost use Rattle.std.specs.Prelude.{◌≡◌, ◌+◌, ◌<◌, ◌≤◌, ℕ, true, false, length, replicate, if◌then◌else◌, IfOk};
ghost use Rattle.netlist.specs.Lines.{signal_of};
ghost use Rattle.lane_play.specs.inner.Lanes.{forced_from, with_lane};
ghost use Rattle.statement.specs.Values.{is_line};
ghost use Rattle.lane_play.specs.inner.Spans.{AreSpans, IsSpanned};

use crate::packed::Lanes;
use netlist::{Fault, Line, SignalId};
use std::alloc::{AllocError, Global};

/// Machines from one number up to another.
#[derive(Clone, Copy, PartialEq, Eq)]
pub(crate) struct Span {
    pub from: u32,
    pub to: u32,
}

impl Span {
    #[inline(always)]
    pub(crate) fn is_empty(self) -> bool
        ensures empty { result ≡ true → self.to ≤ self.from }
        ensures some { result ≡ false → self.from < self.to }
    {
        self.from >= self.to
    }

    /// With one machine more, which comes behind the others.
    fn with(self, k: u32) -> Span
        requires { k < 128 }
        ensures others { (j : ℕ) → self.from ≤ j → j < self.to → j < k → (result.from ≤ j) × (j < result.to) }
        ensures here { (result.from ≤ k) × (result.to ≡ k + 1) }
    {
        let from = if self.from < self.to && self.from < k {
            self.from
        } else {
            k
        };
        Span { from, to: k + 1 }
    }
}

/// The signal that a line is named by.
#[inline(always)]
pub(crate) fn signal_of(line: &Line) -> SignalId
    ensures { result ≡ signal_of line.now }
{
    match line {
        Line::Stem(x) => *x,
        Line::Pin(z, _) => *z,
        Line::Out(y) => *y,
    }
}

/// So many spans without a machine.
fn empty_spans(alloc: Global, count: usize) -> Result<Vec<Span>, AllocError>
    ensures { IfOk result (λ v. v.items ≡ replicate count (record { from = 0; to = 0 })) }
{
    let spans = vec![in alloc; Span { from: 0, to: 0 }; count]?;
    Ok(spans)
}

/// The spans of so many signals.
pub(crate) fn spans_of(
    alloc: Global,
    faults: &[Fault],
    count: usize,
) -> Result<Vec<Span>, AllocError>
    requires { length faults.now ≤ 128 }
    ensures size { IfOk result (λ v. length v.items ≡ count) }
    ensures spans { IfOk result (λ v. AreSpans faults.now (length faults.now) v.items) }
{
    let mut spans = empty_spans(alloc, count)?;
    for k in 0..faults.len() {
        let x = signal_of(&faults[k].line).index();
        if x < spans.len() {
            spans[x] = spans[x].with(k as u32);
        }
    }
    Ok(spans)
}

/// A line's value where a machine may be stuck.
fn forced_one(fault: &Fault, k: usize, line: &Line, value: Lanes) -> Lanes
    requires { k < 128 }
    ensures { result ≡ (if is_line fault.now.line line.now then with_lane k fault.now.value value else value) }
{
    if fault.line.is(line) {
        value.with(k, fault.value)
    } else {
        value
    }
}

/// What a line makes of what comes onto it, where the machines outside of a span have no fault there.
#[inline(never)]
pub(crate) fn forced(faults: &[Fault], span: Span, line: &Line, value: Lanes) -> Lanes
    requires few { length faults.now ≤ 128 }
    requires some { span.from < span.to }
    requires spanned { IsSpanned faults.now (length faults.now) (signal_of line.now) span }
    ensures { result ≡ forced_from 0 faults.now line.now value }
{
    let mut made = value;
    for k in span.from..span.to {
        made = forced_one(&faults[k as usize], k as usize, line, made);
    }
    made
}
