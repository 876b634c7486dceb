//! Patterns that are published together.
ghost use Rattle.std.specs.Prelude.{◌≡◌};

use cubes::Pattern;
use netlist::Point;
use std::marker::Model;

/// The pattern at this place of its batch detects the representative of the class at the point.
#[derive(Clone, Copy, PartialEq, Eq)]
pub struct Hit {
    pub class: u32,
    pub pattern: u32,
    pub point: Point,
}

/// Patterns, and hits that name places among them.
#[derive(Drop)]
pub struct Batch {
    patterns: Vec<Pattern>,
    hits: Vec<Hit>,
}

impl Model for Batch {
    ghost use Rattle.word_sim.specs.Hits.{Batch};

    ghost Value = { Batch };

    ghost view = { λ b. record { patterns = b.patterns.items; hits = b.hits.items } };
}

impl Batch {
    pub fn new(patterns: Vec<Pattern>, hits: Vec<Hit>) -> Batch
        ensures { result ≡ record { patterns = patterns.items; hits = hits.items } }
    {
        Batch { patterns, hits }
    }

    pub fn patterns(&self) -> &[Pattern]
        ensures { result.now ≡ self.now.patterns }
    {
        &self.patterns
    }

    pub fn hits(&self) -> &[Hit]
        ensures { result.now ≡ self.now.hits }
    {
        &self.hits
    }

    pub fn into_parts(self) -> (Vec<Pattern>, Vec<Hit>)
        ensures patterns { result.0.items ≡ self.patterns }
        ensures hits { result.1.items ≡ self.hits }
    {
        let Batch { patterns, hits } = self;
        (patterns, hits)
    }
}
