//! The words on the pins of a gate, by place: as they are given, read from the values of all signals, or read where a line is stuck.
ghost use Rattle.std.specs.Prelude.{◌≡◌, ◌<◌, ◌≤◌, ℕ, List, length, map, slice_index};
ghost use Rattle.std.specs.List.{All};
ghost use Rattle.netlist.specs.Gates.{most_pins};
ghost use Rattle.statement.specs.Values.{on_pins};
ghost use Rattle.netlist.specs.Settled.{at};
ghost use Rattle.events.specs.Words.{words};

use crate::words::Words;
use netlist::{Line, Logic, SignalId};

/// Words by place.
pub(crate) trait Pins {
    ghost words: { Self → List ℕ };

    fn count(&self) -> usize
        ensures { result ≡ length (words self.now) };

    fn word(&self, place: usize) -> u64
        requires { place < length (words self.now) }
        ensures { slice_index (words self.now) place ≡ result };
}

/// Words as they are given.
#[derive(Drop)]
pub(crate) struct Given<'a> {
    pub pins: &'a [u64],
}

/// Words of the signals that the pins read.
#[derive(Drop)]
pub(crate) struct Free<'a> {
    pub pins: &'a [SignalId],
    pub values: &'a [u64],
    ghost below: { All (λ x. x < length values.now) pins.now },
}

/// The same, where a line may be stuck.
#[derive(Drop)]
pub(crate) struct Stuck<'a> {
    pub rule: &'a Words,
    pub id: SignalId,
    pub pins: &'a [SignalId],
    pub values: &'a [u64],
    ghost below: { All (λ x. x < length values.now) pins.now },
    ghost few: { length pins.now ≤ most_pins },
}

impl Pins for Given<'_> {
    ghost words = { λ p. p.pins.now };

    #[inline(always)]
    fn count(&self) -> usize {
        self.pins.len()
    }

    #[inline(always)]
    fn word(&self, place: usize) -> u64 {
        self.pins[place]
    }
}

impl Pins for Free<'_> {
    ghost words = { λ p. map (at p.values.now 0) p.pins.now };

    #[inline(always)]
    fn count(&self) -> usize {
        self.pins.len()
    }

    #[inline(always)]
    fn word(&self, place: usize) -> u64 {
        self.values[self.pins[place].index()]
    }
}

impl Pins for Stuck<'_> {
    ghost words = { λ p. on_pins (words p.rule.now.fault) p.id 0 (map (at p.values.now 0) p.pins.now) };

    #[inline(always)]
    fn count(&self) -> usize {
        self.pins.len()
    }

    #[inline(always)]
    fn word(&self, place: usize) -> u64 {
        let value = self.values[self.pins[place].index()];
        self.rule.line(&Line::Pin(self.id, place as u32), value)
    }
}
