//! Four machines side by side as a rule: in each lane the stem of one signal turns its word over.
ghost use Rattle.std.specs.Prelude.{◌≡◌};
ghost use Rattle.regions.specs.Side.{side_words, turned_in, SideWordsSettleByLanes};

use crate::fours::{Four, Free, Given, Lane, four_of};
use crate::turned::TurnedWords;
use events::Comparing;
use netlist::{Definition, Kind, Line, Logic, SignalId};

/// What is turned over in each lane.
#[derive(Clone, Copy, PartialEq, Eq)]
pub struct TurnedFour {
    pub a: TurnedWords,
    pub b: TurnedWords,
    pub c: TurnedWords,
    pub d: TurnedWords,
}

impl TurnedFour {
    /// What is turned over in a lane.
    #[inline(always)]
    pub fn of(&self, lane: Lane) -> TurnedWords
        ensures { result ≡ turned_in lane self.now }
    {
        match lane {
            Lane::A => self.a,
            Lane::B => self.b,
            Lane::C => self.c,
            Lane::D => self.d,
        }
    }
}

impl Logic for TurnedFour {
    type Value = Four;

    ghost rule = { λ t. side_words t };

    #[inline(always)]
    fn blank(&self) -> Four {
        Four::all(0)
    }

    #[inline(always)]
    fn line(&self, line: &Line, value: Four) -> Four {
        Four {
            a: self.a.line(line, value.a),
            b: self.b.line(line, value.b),
            c: self.c.line(line, value.c),
            d: self.d.line(line, value.d),
        }
    }

    #[inline(always)]
    fn gate(&self, definition: &Definition, pins: &[Four]) -> Four {
        four_of(definition.kind(), &Given { pins })
    }
}

impl Comparing for TurnedFour {
    #[inline(always)]
    fn is_same(&self, one: Four, other: Four) -> bool {
        one.a == other.a && one.b == other.b && one.c == other.c && one.d == other.d
    }

    #[inline(always)]
    fn made(&self, id: SignalId, kind: Kind, pins: &[SignalId], values: &[Four]) -> Four {
        let four = four_of(kind, &Free { pins, values });
        self.line(&Line::Stem(id), four)
    }
}

/// What settles side by side settles in each lane as if it were alone.
pub fn side_words_settle_by_lanes()
    ensures { SideWordsSettleByLanes }
{}
