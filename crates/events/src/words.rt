//! Words of 64 patterns as a rule, where one line may be stuck. (Parallel-pattern simulation: Waicukauski and others, 1985.)
ghost use Rattle.std.specs.Prelude.{◌≡◌, ◌↔◌, ◌<◌, ◌≤◌, IsTrue, length, map};
ghost use Rattle.std.specs.List.{All};
ghost use Rattle.netlist.specs.Gates.{most_pins};
ghost use Rattle.netlist.specs.Settled.{at};
ghost use Rattle.statement.specs.Values.{on_pins};
ghost use Rattle.events.specs.Words.{all_of, some_of, odd_of, only_of, gate_word, is_stuck_at, words, WordsSettleAsBits};

use crate::comparing::Comparing;
use crate::pins::{Free, Given, Pins, Stuck};
use netlist::{Definition, Fault, Kind, Line, Logic, SignalId};

/// Words, where one line may be stuck.
#[derive(Clone, Copy, PartialEq, Eq)]
pub struct Words {
    pub fault: Option<Fault>,
}

#[inline(always)]
fn all_of<P: Pins>(pins: &P) -> u64
    ensures { result ≡ all_of (P.words pins.now) }
{
    let mut all = u64::MAX;
    for k in (0..pins.count()).rev() {
        all = pins.word(k) & all;
    }
    all
}

#[inline(always)]
fn some_of<P: Pins>(pins: &P) -> u64
    ensures { result ≡ some_of (P.words pins.now) }
{
    let mut some = 0;
    for k in (0..pins.count()).rev() {
        some = pins.word(k) | some;
    }
    some
}

#[inline(always)]
fn odd_of<P: Pins>(pins: &P) -> u64
    ensures { result ≡ odd_of (P.words pins.now) }
{
    let mut odd = 0;
    for k in (0..pins.count()).rev() {
        odd = pins.word(k) ^ odd;
    }
    odd
}

#[inline(always)]
fn only_of<P: Pins>(pins: &P) -> u64
    ensures { result ≡ only_of (P.words pins.now) }
{
    if pins.count() == 0 { 0 } else { pins.word(0) }
}

/// What a gate makes of the words on its pins.
#[inline(always)]
fn word_of<P: Pins>(kind: Kind, pins: &P) -> u64
    ensures { result ≡ gate_word kind (P.words pins.now) }
{
    match kind {
        Kind::And => all_of(pins),
        Kind::Nand => all_of(pins) ^ u64::MAX,
        Kind::Or => some_of(pins),
        Kind::Nor => some_of(pins) ^ u64::MAX,
        Kind::Xor => odd_of(pins),
        Kind::Xnor => odd_of(pins) ^ u64::MAX,
        Kind::Not => only_of(pins) ^ u64::MAX,
        Kind::Buff | Kind::Dff => only_of(pins),
        Kind::Const0 => 0,
        Kind::Const1 => u64::MAX,
    }
}

impl Words {
    /// Whether the equation of a signal has the stuck line.
    #[inline(always)]
    fn is_stuck_at(&self, id: SignalId) -> bool
        ensures { result ≡ is_stuck_at self.now.fault id }
    {
        match &self.fault {
            None => false,
            Some(fault) => match &fault.line {
                Line::Stem(x) => x.index() == id.index(),
                Line::Pin(z, _) => z.index() == id.index(),
                Line::Out(_) => false,
            },
        }
    }

    /// What a gate makes where its equation may have the stuck line.
    #[inline(never)]
    fn made_stuck(&self, id: SignalId, kind: Kind, pins: &[SignalId], values: &[u64]) -> u64
        requires below { All (λ x. x < length values.now) pins.now }
        requires few { length pins.now ≤ most_pins }
        ensures { result ≡ (words self.now.fault).line (Line.Stem id) (gate_word kind (on_pins (words self.now.fault) id 0 (map (at values.now 0) pins.now))) }
    {
        let word = word_of(
            kind,
            &Stuck {
                rule: self,
                id,
                pins,
                values,
            },
        );
        self.line(&Line::Stem(id), word)
    }
}

impl Logic for Words {
    type Value = u64;

    ghost rule = { λ w. words w.fault };

    #[inline(always)]
    fn blank(&self) -> u64 {
        0
    }

    #[inline(always)]
    fn line(&self, line: &Line, value: u64) -> u64 {
        match &self.fault {
            None => value,
            Some(fault) => {
                if fault.line.is(line) {
                    if fault.value { u64::MAX } else { 0 }
                } else {
                    value
                }
            }
        }
    }

    #[inline(always)]
    fn gate(&self, definition: &Definition, pins: &[u64]) -> u64 {
        word_of(definition.kind(), &Given { pins })
    }
}

impl Comparing for Words {
    #[inline(always)]
    fn is_same(&self, one: u64, other: u64) -> bool {
        one == other
    }

    #[inline(always)]
    fn made(&self, id: SignalId, kind: Kind, pins: &[SignalId], values: &[u64]) -> u64 {
        if self.is_stuck_at(id) {
            self.made_stuck(id, kind, pins, values)
        } else {
            word_of(kind, &Free { pins, values })
        }
    }
}

/// Bit j of settled words settles as the bits of pattern j.
pub fn words_settle_as_bits()
    ensures { WordsSettleAsBits }
{}
