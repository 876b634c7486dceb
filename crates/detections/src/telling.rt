//! Which of up to 64 patterns detect a fault: a word with a bit for each.
ghost use Rattle.std.specs.Prelude.{◌≡◌, ◌≢◌, ◌<◌, ◌≤◌, ◌↔◌, ℕ, [], false, true, List, length, IfOk, OnOk};
ghost use Rattle.std.specs.List.{All};
ghost use Rattle.netlist.specs.Lines.{IsLineOf};
ghost use Rattle.statement.specs.Patterns.{Pattern as Bits};
ghost use Rattle.events.specs.Words.{bit_of};
ghost use Rattle.observed_points.specs.Points.{ArePoints};
ghost use Rattle.word_sim.specs.Words.{HasWidthsOf};
ghost use Rattle.word_sim.specs.inner.Packed.{AreGoodFor};
ghost use Rattle.detections.specs.Times.{IsDetectedBy};
ghost use Rattle.detections.specs.inner.Telling.{CanTell, IsReady, TellsPatterns};

use crate::seeing::known_or_seen;
use cubes::Pattern;
use events::Events;
use netlist::{Core, Fault};
use observed_points::Points;
use regions::Paths;
use std::alloc::{AllocError, Global};
use word_sim::{good_events, last_marked, next_patterns};

/// The words of a batch of patterns, and what is kept for its faults.
#[derive(Drop)]
pub(crate) struct Teller<'a> {
    events: Events<'a, u64>,
    points: Points,
    paths: Paths,
    /// For each signal the patterns under which some point sees it turned over, once that is known.
    seen: Vec<Option<u64>>,
}

fn none_seen(alloc: Global, count: usize) -> Result<Vec<Option<u64>>, AllocError>
    ensures { IfOk result (λ v. length v.items ≡ count) }
{
    let mut seen = Vec::with_capacity(alloc, count)?;
    for _done in 0..count {
        seen.push(None)?;
    }
    Ok(seen)
}

/// The word with one bit more, where the bit is 1.
fn with_bit(word: u64, j: usize, bit: bool) -> u64
    requires { j < 64 }
    ensures same { bit_of j word ≡ false → bit_of j result ≡ bit }
    ensures others { (i : ℕ) → i ≢ j → bit_of i result ≡ bit_of i word }
{
    if bit { word | (1u64 << j) } else { word }
}

/// Whether one pattern detects a fault. The words are then those before.
fn is_told(events: &mut Events<'_, u64>, points: &Points, j: usize, fault: &Fault) -> bool
    requires points { ArePoints events.old.netlist points.now.seen.items points.now.first.items points.now.numbers.items }
    requires line { IsLineOf events.old.netlist fault.now.line }
    requires trail { events.old.trail ≡ [] }
    requires low { j < 64 }
    ensures told { (patterns : List Bits) → AreGoodFor events.old.netlist patterns events.old.values → j < length patterns
        → (result ≡ true) ↔ IsDetectedBy events.old.netlist patterns fault.now j }
    ensures same { events.new ≡ events.old }
{
    last_marked(events, points, 1u64 << j, fault).is_some()
}

/// The patterns that detect a fault, each told by itself, as of a line that only a point reads. The words are then those before.
fn told_alone(
    events: &mut Events<'_, u64>,
    points: &Points,
    patterns: &[Pattern],
    fault: &Fault,
) -> u64
    requires points { ArePoints events.old.netlist points.now.seen.items points.now.first.items points.now.numbers.items }
    requires good { AreGoodFor events.old.netlist patterns.now events.old.values }
    requires line { IsLineOf events.old.netlist fault.now.line }
    requires trail { events.old.trail ≡ [] }
    ensures told { TellsPatterns events.old.netlist patterns.now fault.now result }
    ensures same { events.new ≡ events.old }
{
    let mut word = 0;
    for j in 0..patterns.len() {
        let bit = is_told(events, points, j, fault);
        word = with_bit(word, j, bit);
    }
    word
}

impl<'a> Teller<'a> {
    /// Room for the patterns of a netlist.
    pub(crate) fn new(alloc: Global, core: &'a Core) -> Result<Teller<'a>, AllocError>
        ensures { IfOk result (IsReady core.now) }
    {
        let paths = Paths::new(alloc, core.netlist())?;
        let seen = none_seen(alloc, paths.heads.len())?;
        Ok(Teller {
            events: good_events(alloc, core, &[])?,
            points: Points::of(alloc, core)?,
            paths,
            seen,
        })
    }

    /// These patterns in place of those before.
    pub(crate) fn begin(
        &mut self,
        alloc: Global,
        core: &Core,
        patterns: &[Pattern],
    ) -> Result<(), AllocError>
        requires few { length patterns.now ≤ 64 }
        requires wide { All (HasWidthsOf core.now) patterns.now }
        requires ready { IsReady core.now self.old }
        ensures { OnOk result (CanTell core.now patterns.now self.new) }
    {
        next_patterns(alloc, &mut self.events, patterns)?;
        self.paths.open(core, self.events.values());
        self.seen.fill(None);
        Ok(())
    }

    /// The patterns that detect a fault.
    pub(crate) fn word(&mut self, core: &Core, patterns: &[Pattern], fault: &Fault) -> u64
        requires can { CanTell core.now patterns.now self.old }
        requires line { IsLineOf core.now fault.now.line }
        ensures told { TellsPatterns core.now patterns.now fault.now result }
        ensures can { CanTell core.now patterns.now self.new }
    {
        let netlist = core.netlist();
        netlist.sound();
        let events = &mut self.events;
        let Some((head, under)) = self.paths.reach(netlist, events.values(), fault) else {
            return told_alone(events, &self.points, patterns, fault);
        };
        if under == 0 {
            return 0;
        }
        under & known_or_seen(events, &self.points, &mut self.seen, head)
    }
}
