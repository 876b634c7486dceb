//! Words of 64 patterns as a rule, where the stem of one signal turns its word over.
ghost use Rattle.std.specs.Prelude.{◌≡◌};
ghost use Rattle.regions.specs.Turned.{turned_words};

use events::{Comparing, Words};
use netlist::{Definition, Kind, Line, Logic, SignalId};

/// Words, where the stem of a signal turns its word over in the patterns of a mask.
#[derive(Clone, Copy, PartialEq, Eq)]
pub struct TurnedWords {
    pub signal: SignalId,
    pub mask: u64,
}

impl TurnedWords {
    /// What the stem of a signal makes of a word.
    #[inline(always)]
    fn turn(&self, id: SignalId, word: u64) -> u64
        ensures { result ≡ (turned_words self.now.signal self.now.mask).line (Line.Stem id) word }
    {
        if self.signal.index() == id.index() {
            word ^ self.mask
        } else {
            word
        }
    }
}

impl Logic for TurnedWords {
    type Value = u64;

    ghost rule = { λ w. turned_words w.signal w.mask };

    #[inline(always)]
    fn blank(&self) -> u64 {
        0
    }

    #[inline(always)]
    fn line(&self, line: &Line, value: u64) -> u64 {
        match line {
            Line::Stem(id) => self.turn(*id, value),
            Line::Pin(_, _) => value,
            Line::Out(_) => value,
        }
    }

    #[inline(always)]
    fn gate(&self, definition: &Definition, pins: &[u64]) -> u64 {
        let plain = Words { fault: None };
        plain.gate(definition, pins)
    }
}

impl Comparing for TurnedWords {
    #[inline(always)]
    fn is_same(&self, one: u64, other: u64) -> bool {
        one == other
    }

    #[inline(always)]
    fn made(&self, id: SignalId, kind: Kind, pins: &[SignalId], values: &[u64]) -> u64 {
        let plain = Words { fault: None };
        let word = plain.made(id, kind, pins, values);
        self.turn(id, word)
    }
}
