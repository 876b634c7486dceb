//! The faults of a batch by the heads of their regions: one propagation from a head tells all of its faults.
ghost use Rattle.std.specs.Prelude.{◌≡◌, ◌<◌, [], ℕ, length, replicate, None, Some, IfOk, OnOk};
ghost use Rattle.std.specs.List.{All, list_any, slice_get};
ghost use Rattle.netlist.specs.Lines.{IsLineOf};
ghost use Rattle.statement.specs.Netlists.{signals};
ghost use Rattle.statement.specs.declared.lines.Fault.{Fault as FaultOf};
ghost use Rattle.events.specs.Words.{bit_of};
ghost use Rattle.regions.specs.Paths.{AreOpen};
ghost use Rattle.word_sim.specs.inner.Differences.{shows_under};
ghost use Rattle.word_sim.specs.inner.Groups.{AreReaches, AreTold, CanTellAll, HasRoom, IsPass, IsToldOf, ShowAll};

use crate::overlap::Overlap;
use crate::passes::{Pass, Reach};
use crate::shown::{Shown, all_under, last_among, list_shown};
use events::Events;
use netlist::{Core, Fault, Netlist, SignalId};
use regions::{Paths, TurnedWords, turn};
use std::alloc::{AllocError, Global};

/// What was found of a fault, where it is known.
pub(crate) type Told = Option<Option<(u32, usize)>>;

/// The faults of a batch by their heads.
#[derive(Drop)]
pub(crate) struct Linked {
    /// Of each fault of the batch.
    pub reaches: Vec<Reach>,
    /// The next fault with the same head as each, or a number that isn't above its own.
    pub links: Vec<u32>,
    /// For each signal the first fault that may reach it as a head, of those that are linked.
    pub latest: Vec<u32>,
    /// The signals that are heads of faults, each once.
    pub heads: Vec<SignalId>,
}

/// What is told of them, and what telling takes.
#[derive(Drop)]
pub(crate) struct Telling {
    /// Of each fault of the batch.
    pub told: Vec<Told>,
    /// The changes from a head that points read.
    pub shown: Vec<Shown>,
    pub overlap: Overlap,
}

/// What is kept of the faults of a batch. What it holds before a batch doesn't matter.
#[derive(Drop)]
pub(crate) struct Groups {
    pub paths: Paths,
    pub linked: Linked,
    pub telling: Telling,
}

fn reach_all(
    netlist: &Netlist,
    paths: &Paths,
    values: &[u64],
    faults: &[(u32, Fault)],
    reaches: &mut Vec<Reach>,
) -> Result<(), AllocError>
    requires lines { All (λ (g : ℕ × FaultOf). IsLineOf netlist.now g.1.line) faults.now }
    requires size { length values.now ≡ length (signals netlist.now) }
    requires open { AreOpen netlist.now values.now paths.now.heads.items paths.now.opens.items }
    ensures { OnOk result (AreReaches netlist.now values.now faults.now reaches.new.items) }
{
    reaches.clear();
    for given in faults {
        reaches.push(paths.reach(netlist, values, &given.1))?;
    }
    Ok(())
}

/// Nothing is linked or told.
fn begin(count: usize, links: &mut Vec<u32>, told: &mut Vec<Told>) -> Result<(), AllocError>
    ensures { OnOk result (told.new.items ≡ replicate count None) }
{
    links.clear();
    told.clear();
    for _done in 0..count {
        links.push(0)?;
        told.push(None)?;
    }
    Ok(())
}

/// Links the faults with the same head, in their order, and lists the heads.
fn link(
    reaches: &[Reach],
    links: &mut Vec<u32>,
    latest: &mut Vec<u32>,
    heads: &mut Vec<SignalId>,
) -> Result<(), AllocError> {
    latest.fill(0);
    heads.clear();
    for k in (0..reaches.len()).rev() {
        if let Some((head, _)) = reaches[k] {
            if head.index() < latest.len() && k < links.len() && k < 4294967296 {
                if latest[head.index()] == 0 {
                    heads.push(head)?;
                }
                links[k] = latest[head.index()];
                latest[head.index()] = k as u32;
            }
        }
    }
    Ok(())
}

impl Linked {
    /// Room for so many signals.
    fn new(alloc: Global, count: usize) -> Result<Linked, AllocError> {
        let latest = vec![in alloc; 0u32; count]?;
        let heads = Vec::with_capacity(alloc, count)?;
        Ok(Linked {
            reaches: Vec::new(alloc),
            links: Vec::new(alloc),
            latest,
            heads,
        })
    }
}

impl Telling {
    /// Room for so many signals.
    fn new(alloc: Global, count: usize) -> Result<Telling, AllocError> {
        let overlap = Overlap::new(alloc, count)?;
        Ok(Telling {
            told: Vec::new(alloc),
            shown: Vec::new(alloc),
            overlap,
        })
    }
}

impl Groups {
    /// Room for the signals of a netlist.
    pub(crate) fn new(alloc: Global, netlist: &Netlist) -> Result<Groups, AllocError>
        ensures { IfOk result (λ g. HasRoom netlist.now g.paths.heads.items g.paths.opens.items) }
    {
        let paths = Paths::new(alloc, netlist)?;
        let count = paths.heads.len();
        let linked = Linked::new(alloc, count)?;
        let telling = Telling::new(alloc, count)?;
        Ok(Groups {
            paths,
            linked,
            telling,
        })
    }

    /// The faults of a batch by their heads. Nothing is told yet.
    pub(crate) fn gather(
        &mut self,
        core: &Core,
        values: &[u64],
        faults: &[(u32, Fault)],
    ) -> Result<(), AllocError>
        requires lines { All (λ (g : ℕ × FaultOf). IsLineOf core.now g.1.line) faults.now }
        requires size { length values.now ≡ length (signals core.now) }
        requires room { HasRoom core.now self.old.paths.heads.items self.old.paths.opens.items }
        ensures reaches { OnOk result (AreReaches core.now values.now faults.now self.new.linked.reaches.items) }
        ensures told { OnOk result (self.new.telling.told.items ≡ replicate (length faults.now) None) }
        ensures room { HasRoom core.now self.new.paths.heads.items self.new.paths.opens.items }
    {
        self.paths.open(core, values);
        let netlist = core.netlist();
        reach_all(
            netlist,
            &self.paths,
            values,
            faults,
            &mut self.linked.reaches,
        )?;
        begin(faults.len(), &mut self.linked.links, &mut self.telling.told)?;
        let linked = &mut self.linked;
        link(
            &linked.reaches,
            &mut linked.links,
            &mut linked.latest,
            &mut linked.heads,
        )
    }
}

/// The patterns under which some fault reaches the head, from one fault on.
pub(crate) fn mask_from(pass: &Pass, start: usize) -> u64 {
    let mut mask = 0;
    let mut k = start;
    for _step in 0..pass.reaches.len() {
        if k >= pass.reaches.len() || k >= pass.links.len() {
            return mask;
        }
        if let Some((_, word)) = pass.reaches[k] {
            mask |= word;
        }
        let next = pass.links[k] as usize;
        if next <= k {
            return mask;
        }
        k = next;
    }
    mask
}

/// What the changes from a head tell of the fault at place k: nothing where it has another head, or reaches it under other patterns than those turned over.
fn tell_one(
    events: &Events<'_, u64>,
    pass: &Pass,
    turned: &TurnedWords,
    shown: &[Shown],
    all: u64,
    k: usize,
) -> Told
    requires turned { ShowAll events.now.netlist pass.now turned.now shown.now }
    requires all { (j : ℕ) → j < 64 → bit_of j all ≡ list_any (shows_under j) shown.now }
    requires within { k < length pass.now.reaches.now }
    ensures { (g : ℕ × FaultOf) → slice_get pass.now.faults.now k ≡ Some g → IsToldOf events.now.netlist pass.now.patterns.now g.1 result }
{
    events.core().netlist().sound();
    let Some((end, word)) = pass.reaches[k] else {
        return None;
    };
    let under = pass.used & word;
    if end.index() != turned.signal.index() || under & (turned.mask ^ u64::MAX) != 0 {
        return None;
    }
    Some(last_among(shown, all, under, pass.points.seen.len()))
}

/// Goes over the faults with the same head, from one fault on.
pub(crate) fn tell_chain(
    events: &Events<'_, u64>,
    pass: &Pass,
    turned: &TurnedWords,
    start: usize,
    shown: &[Shown],
    told: &mut Vec<Told>,
)
    requires turned { ShowAll events.now.netlist pass.now turned.now shown.now }
    requires told { AreTold events.now.netlist pass.now told.old.items }
    ensures { AreTold events.now.netlist pass.now told.new.items }
{
    let all = all_under(shown);
    let mut k = start;
    for _step in 0..pass.reaches.len() {
        if k >= pass.reaches.len() || k >= pass.links.len() || k >= pass.faults.len() {
            return;
        }
        told[k] = tell_one(events, pass, turned, shown, all, k);
        let next = pass.links[k] as usize;
        if next <= k {
            return;
        }
        k = next;
    }
}

/// Tells the faults with a head that is turned over, from one fault on. Where there is no memory for a list, nothing is told.
fn tell_turned(
    events: &Events<'_, u64>,
    pass: &Pass,
    turned: &TurnedWords,
    start: usize,
    shown: &mut Vec<Shown>,
    told: &mut Vec<Told>,
)
    requires turned { CanTellAll events.now.netlist pass.now turned.now events.now.values events.now.trail }
    requires told { AreTold events.now.netlist pass.now told.old.items }
    ensures { AreTold events.now.netlist pass.now told.new.items }
{
    let points = pass.points;
    let count = points.seen.len();
    let Ok(()) = list_shown(events.trail(), events.values(), &points.first, count, shown) else {
        return;
    };
    tell_chain(events, pass, turned, start, shown, told);
}

/// Turns over the head of a fault, and tells the faults with the same head. The words are then those before.
pub(crate) fn tell_from(
    events: &mut Events<'_, u64>,
    pass: &Pass,
    start: usize,
    overlap: &mut Overlap,
    is_counted: bool,
    shown: &mut Vec<Shown>,
    told: &mut Vec<Told>,
)
    requires pass { IsPass events.old.netlist events.old.values pass.now }
    requires trail { events.old.trail ≡ [] }
    requires start { start < length pass.now.reaches.now }
    requires told { AreTold events.old.netlist pass.now told.old.items }
    ensures told { AreTold events.old.netlist pass.now told.new.items }
    ensures same { events.new ≡ events.old }
{
    let Some((head, _)) = pass.reaches[start] else {
        return;
    };
    let mask = mask_from(pass, start);
    turn(events, head, mask);
    if is_counted {
        overlap.count(events.trail());
    }
    let turned = TurnedWords { signal: head, mask };
    tell_turned(events, pass, &turned, start, shown, told);
    events.undo(0);
}
