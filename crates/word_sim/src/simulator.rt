//! Simulation of one batch after another: room is made once.
ghost use Rattle.std.specs.Prelude.{◌≡◌, ◌≤◌, ℕ, [], length, IfOk};
ghost use Rattle.std.specs.List.{All};
ghost use Rattle.netlist.specs.Lines.{IsLineOf};
ghost use Rattle.statement.specs.declared.lines.Fault.{Fault as FaultOf};
ghost use Rattle.word_sim.specs.Hits.{AreHits};
ghost use Rattle.word_sim.specs.Words.{HasWidthsOf};

use crate::batches::Hit;
use crate::fault_hits::{find_hits, good_events, next_patterns};
use crate::groups::Groups;
use cubes::Pattern;
use events::Events;
use netlist::{Core, Fault, NoMemory};
use observed_points::Points;
use regions::Four;
use std::alloc::{AllocError, Global};
use std::marker::Model;

/// The words of a netlist, and what is kept of its points and of the faults of a batch.
#[derive(Drop)]
pub struct Simulator<'a> {
    events: Events<'a, u64>,
    /// An evaluator for four heads side by side, made where that pays first.
    wide: Option<Events<'a, Four>>,
    points: Points,
    groups: Groups,
}

impl<'a> Model for Simulator<'a> {
    ghost use Rattle.statement.specs.Netlists.{Netlist};
    ghost use Rattle.word_sim.specs.inner.Simulating.{CanSimulate};

    ghost Value = { Netlist };

    ghost view = { λ s. s.events.netlist };

    ghost invariant = { λ s. CanSimulate s.events.netlist s.events.values s.wide s.points.seen.items s.points.first.items s.points.numbers.items s.groups.paths.heads.items s.groups.paths.opens.items };
}

impl<'a> Simulator<'a> {
    /// The room for all batches, and no pattern yet.
    pub(crate) fn made(alloc: Global, core: &'a Core) -> Result<Simulator<'a>, AllocError>
        ensures { IfOk result (λ s. s ≡ core.now) }
    {
        let points = Points::of(alloc, core)?;
        let groups = Groups::new(alloc, core.netlist())?;
        let events = good_events(alloc, core, &[])?;
        Ok(Simulator {
            events,
            wide: None,
            points,
            groups,
        })
    }

    /// A simulator of a netlist.
    pub fn new(alloc: Global, core: &'a Core) -> Result<Simulator<'a>, NoMemory>
        ensures { IfOk result (λ s. s ≡ core.now) }
    {
        Simulator::made(alloc, core).map_err(|_| NoMemory)
    }

    pub(crate) fn batch_hits(
        &mut self,
        alloc: Global,
        patterns: &[Pattern],
        faults: &[(u32, Fault)],
    ) -> Result<Vec<Hit>, AllocError>
        requires few { length patterns.now ≤ 64 }
        requires wide { All (HasWidthsOf self.old) patterns.now }
        requires lines { All (λ (g : ℕ × FaultOf). IsLineOf self.old g.1.line) faults.now }
        ensures hits { IfOk result (λ v. AreHits self.old patterns.now faults.now v.items) }
        ensures same { self.new ≡ self.old }
    {
        next_patterns(alloc, &mut self.events, patterns)?;
        find_hits(
            alloc,
            &mut self.events,
            &mut self.wide,
            &self.points,
            &mut self.groups,
            patterns,
            faults,
        )
    }

    /// For each given fault that some pattern detects, in the order given, the last such pattern and its first point.
    pub fn hits(
        &mut self,
        alloc: Global,
        patterns: &[Pattern],
        faults: &[(u32, Fault)],
    ) -> Result<Vec<Hit>, NoMemory>
        requires few { length patterns.now ≤ 64 }
        requires wide { All (HasWidthsOf self.old) patterns.now }
        requires lines { All (λ (g : ℕ × FaultOf). IsLineOf self.old g.1.line) faults.now }
        ensures hits { IfOk result (λ v. AreHits self.old patterns.now faults.now v.items) }
        ensures same { self.new ≡ self.old }
    {
        self.batch_hits(alloc, patterns, faults)
            .map_err(|_| NoMemory)
    }
}

/// The hits of one batch, by a simulator that is made for it.
fn hits_of_batch(
    alloc: Global,
    core: &Core,
    patterns: &[Pattern],
    faults: &[(u32, Fault)],
) -> Result<Vec<Hit>, AllocError>
    requires few { length patterns.now ≤ 64 }
    requires wide { All (HasWidthsOf core.now) patterns.now }
    requires lines { All (λ (g : ℕ × FaultOf). IsLineOf core.now g.1.line) faults.now }
    ensures { IfOk result (λ v. AreHits core.now patterns.now faults.now v.items) }
{
    let mut simulator = Simulator::made(alloc, core)?;
    let hits = simulator.batch_hits(alloc, patterns, faults);
    drop(simulator);
    hits
}

/// For each given fault that some pattern detects, in the order given, the last such pattern and its first point.
pub fn hits(
    alloc: Global,
    core: &Core,
    patterns: &[Pattern],
    faults: &[(u32, Fault)],
) -> Result<Vec<Hit>, NoMemory>
    requires few { length patterns.now ≤ 64 }
    requires wide { All (HasWidthsOf core.now) patterns.now }
    requires lines { All (λ (g : ℕ × FaultOf). IsLineOf core.now g.1.line) faults.now }
    ensures { IfOk result (λ v. AreHits core.now patterns.now faults.now v.items) }
{
    hits_of_batch(alloc, core, patterns, faults).map_err(|_| NoMemory)
}
