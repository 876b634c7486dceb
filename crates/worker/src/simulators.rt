//! One batch of patterns simulated by several workers beside each other, each on the faults that are dealt to it.
ghost use Rattle.std.specs.Prelude.{◌≡◌, ◌<◌, ◌≤◌, ◌^◌, ◌++◌, ℕ, length, IfOk, OnOk};
ghost use Rattle.std.specs.List.{All};
ghost use Rattle.std.specs.Option.{option_to_list};
ghost use Rattle.netlist.specs.Lines.{IsLineOf};
ghost use Rattle.statement.specs.declared.lines.Fault.{Fault as FaultOf};
ghost use Rattle.word_sim.specs.Hits.{AreHits};
ghost use Rattle.word_sim.specs.Words.{HasWidthsOf};
ghost use Rattle.worker.specs.declared.simulators.Part.{Part};
ghost use Rattle.worker.specs.inner.Dealing.{dealt_hits};
ghost use Rattle.worker.specs.inner.Gathering.{AreSimulators, HasFound, HaveFound, IsFound, IsNextHit};

use crate::adding::add;
use crate::dealing::Deal;
use cubes::Pattern;
use netlist::{Core, Fault, NoMemory};
use std::alloc::Global;
use std::marker::Model;
use std::thread;
use std::thread::Threads;
use word_sim::{Hit, Simulator};

/// Fewer faults are simulated sooner by one worker than threads are made.
const FEWEST: usize = 512;

/// Dealt faults have their places as numbers. More are simulated by one worker.
const MOST: usize = 1 << 32;

/// A worker's simulator, what was dealt to it, each under its place among all, and what it found of it.
#[derive(Drop)]
struct Part<'a> {
    simulator: Simulator<'a>,
    own: Vec<(u32, Fault)>,
    hits: Result<Vec<Hit>, NoMemory>,
}

/// A simulator for each of several workers. Contracts see the netlist.
#[derive(Drop)]
pub struct Simulators<'a> {
    core: &'a Core,
    deal: Deal,
    parts: Vec<Part<'a>>,
}

impl<'a> Model for Simulators<'a> {
    ghost use Rattle.statement.specs.Netlists.{Netlist};
    ghost use Rattle.worker.specs.inner.Gathering.{AreSimulators};

    ghost Value = { Netlist };

    ghost view = { λ s. s.core.now };

    ghost invariant = { λ s. AreSimulators s.core.now s.deal.parts s.parts.items };
}

/// What a part found is put behind.
fn push_found(all: &mut Vec<Hit>, found: Option<Hit>) -> Result<(), NoMemory>
    ensures { OnOk result (all.new.items ≡ all.old.items ++ option_to_list found) }
{
    if let Some(hit) = found {
        add(all, hit)?;
    }
    Ok(())
}

/// A simulator for each of so many workers.
fn parts_of<'a>(alloc: Global, core: &'a Core, workers: u32) -> Result<Vec<Part<'a>>, NoMemory>
    ensures each { IfOk result (λ v. All (λ (p : Part). p.simulator ≡ core.now) v.items) }
    ensures len { IfOk result (λ v. length v.items ≡ workers) }
{
    let mut parts = Vec::with_capacity(alloc, workers as usize)?;
    for _worker in 0..workers {
        let simulator = Simulator::new(alloc, core)?;
        parts.push_reserved(Part {
            simulator,
            own: Vec::new(alloc),
            hits: Err(NoMemory),
        });
    }
    Ok(parts)
}

/// The hits of the faults that are dealt to a part.
fn own_hits(
    alloc: Global,
    deal: &Deal,
    number: usize,
    patterns: &[Pattern],
    given: &[(u32, Fault)],
    simulator: &mut Simulator<'_>,
    own: &mut Vec<(u32, Fault)>,
) -> Result<Vec<Hit>, NoMemory>
    requires short { length given.now ≤ 2 ^ 32 }
    requires few { length patterns.now ≤ 64 }
    requires wide { All (HasWidthsOf simulator.old) patterns.now }
    requires lines { All (λ (g : ℕ × FaultOf). IsLineOf simulator.old g.1.line) given.now }
    ensures hits { IfOk result (λ v. AreHits simulator.old patterns.now (dealt_hits deal.now.numbers.items number 0 given.now) v.items) }
    ensures same { simulator.new ≡ simulator.old }
{
    deal.deal(number, given, own)?;
    simulator.hits(alloc, patterns, own)
}

/// A part finds the hits of the faults that are dealt to it.
fn simulate(
    alloc: Global,
    core: &Core,
    deal: &Deal,
    number: usize,
    patterns: &[Pattern],
    given: &[(u32, Fault)],
    part: &mut Part<'_>,
)
    requires short { length given.now ≤ 2 ^ 32 }
    requires few { length patterns.now ≤ 64 }
    requires wide { All (HasWidthsOf core.now) patterns.now }
    requires lines { All (λ (g : ℕ × FaultOf). IsLineOf core.now g.1.line) given.now }
    requires same { part.old.simulator ≡ core.now }
    ensures { HasFound core.now patterns.now deal.now.numbers.items given.now number part.new }
{
    let hits = own_hits(
        alloc,
        deal,
        number,
        patterns,
        given,
        &mut part.simulator,
        &mut part.own,
    );
    part.hits = hits;
}

/// Each part finds the hits of what is dealt to it, beside the others.
fn simulate_all<R: Threads + Sync>(
    rt: &R,
    alloc: Global,
    core: &Core,
    deal: &Deal,
    patterns: &[Pattern],
    given: &[(u32, Fault)],
    parts: &mut [Part<'_>],
)
    requires parts { AreSimulators core.now deal.now.parts parts.old }
    requires short { length given.now ≤ 2 ^ 32 }
    requires few { length patterns.now ≤ 64 }
    requires wide { All (HasWidthsOf core.now) patterns.now }
    requires lines { All (λ (g : ℕ × FaultOf). IsLineOf core.now g.1.line) given.now }
    ensures parts { AreSimulators core.now deal.now.parts parts.new }
    ensures hits { HaveFound core.now patterns.now deal.now.numbers.items given.now parts.new }
{
    let step = move |number: usize, part: &mut Part<'_>|
        requires { (length given.now ≤ 2 ^ 32) × (length patterns.now ≤ 64) × All (HasWidthsOf core.now) patterns.now × All (λ (g : ℕ × FaultOf). IsLineOf core.now g.1.line) given.now × (part.now.simulator ≡ core.now) }
        ensures { HasFound core.entry.now patterns.entry.now deal.entry.now.numbers.items given.entry.now number part.exit.now }
    { simulate(alloc, core, deal, number, patterns, given, part) };
    let workers = parts.len();
    thread::for_each_mut(rt, parts, workers, &step);
}

/// A part's next hit, if it is of the fault at this place, and the number of the hit after it.
fn next_hit(hits: &[Hit], next: usize, place: usize, class: u32) -> (Option<Hit>, usize)
    ensures { IsNextHit hits.now next place class result.0 result.1 }
{
    match hits.get(next) {
        Some(hit) if hit.class as usize == place => (Some(Hit { class, ..*hit }), next + 1),
        _ => (None, next),
    }
}

fn found_of(
    part: &Part<'_>,
    next: usize,
    place: usize,
    class: u32,
) -> Result<(Option<Hit>, usize), NoMemory>
    ensures { IfOk result (λ r. IsFound part.now.hits next place class r.0 r.1) }
{
    match &part.hits {
        Ok(hits) => Ok(next_hit(hits, next, place, class)),
        Err(_) => Err(NoMemory),
    }
}

/// What all parts found, in the order of the faults.
fn gathered(
    alloc: Global,
    core: &Core,
    deal: &Deal,
    patterns: &[Pattern],
    given: &[(u32, Fault)],
    parts: &[Part<'_>],
) -> Result<Vec<Hit>, NoMemory>
    requires parts { length parts.now ≡ deal.now.parts }
    requires hits { HaveFound core.now patterns.now deal.now.numbers.items given.now parts.now }
    ensures { IfOk result (λ v. AreHits core.now patterns.now given.now v.items) }
{
    let mut nexts = vec![in alloc; 0usize; parts.len()]?;
    let mut all = Vec::new(alloc);
    for place in 0..given.len() {
        let one = given[place];
        let part = deal.part(&one.1);
        let (found, after) = found_of(&parts[part], nexts[part], place, one.0)?;
        nexts[part] = after;
        push_found(&mut all, found)?;
    }
    Ok(all)
}

/// By all workers.
fn hits_beside<R: Threads + Sync>(
    rt: &R,
    alloc: Global,
    core: &Core,
    deal: &Deal,
    patterns: &[Pattern],
    given: &[(u32, Fault)],
    parts: &mut [Part<'_>],
) -> Result<Vec<Hit>, NoMemory>
    requires parts { AreSimulators core.now deal.now.parts parts.old }
    requires short { length given.now ≤ 2 ^ 32 }
    requires few { length patterns.now ≤ 64 }
    requires wide { All (HasWidthsOf core.now) patterns.now }
    requires lines { All (λ (g : ℕ × FaultOf). IsLineOf core.now g.1.line) given.now }
    ensures hits { IfOk result (λ v. AreHits core.now patterns.now given.now v.items) }
    ensures parts { AreSimulators core.now deal.now.parts parts.new }
{
    simulate_all(rt, alloc, core, deal, patterns, given, parts);
    gathered(alloc, core, deal, patterns, given, parts)
}

/// By the first worker.
fn hits_alone(
    alloc: Global,
    core: &Core,
    deal: &Deal,
    patterns: &[Pattern],
    given: &[(u32, Fault)],
    parts: &mut [Part<'_>],
) -> Result<Vec<Hit>, NoMemory>
    requires parts { AreSimulators core.now deal.now.parts parts.old }
    requires few { length patterns.now ≤ 64 }
    requires wide { All (HasWidthsOf core.now) patterns.now }
    requires lines { All (λ (g : ℕ × FaultOf). IsLineOf core.now g.1.line) given.now }
    ensures hits { IfOk result (λ v. AreHits core.now patterns.now given.now v.items) }
    ensures parts { AreSimulators core.now deal.now.parts parts.new }
{
    parts[0].simulator.hits(alloc, patterns, given)
}

impl<'a> Simulators<'a> {
    /// Simulators of a netlist for so many workers.
    pub fn new(alloc: Global, core: &'a Core, workers: u32) -> Result<Simulators<'a>, NoMemory>
        requires { 0 < workers }
        ensures { IfOk result (λ s. s ≡ core.now) }
    {
        let deal = Deal::new(alloc, core, workers)?;
        let parts = parts_of(alloc, core, workers)?;
        Ok(Simulators { core, deal, parts })
    }

    /// For each given fault that some pattern detects, in the order given, the last such pattern and its first point: what one simulator answers.
    pub fn hits<R: Threads + Sync>(
        &mut self,
        rt: &R,
        alloc: Global,
        patterns: &[Pattern],
        given: &[(u32, Fault)],
    ) -> Result<Vec<Hit>, NoMemory>
        requires few { length patterns.now ≤ 64 }
        requires wide { All (HasWidthsOf self.old) patterns.now }
        requires lines { All (λ (g : ℕ × FaultOf). IsLineOf self.old g.1.line) given.now }
        ensures hits { IfOk result (λ v. AreHits self.old patterns.now given.now v.items) }
        ensures same { self.new ≡ self.old }
    {
        let core = self.core;
        if self.parts.len() == 1 || given.len() < FEWEST || given.len() > MOST {
            hits_alone(alloc, core, &self.deal, patterns, given, &mut self.parts)
        } else {
            hits_beside(
                rt,
                alloc,
                core,
                &self.deal,
                patterns,
                given,
                &mut self.parts,
            )
        }
    }
}
