//! What up to 64 patterns detect of given faults.
ghost use Rattle.std.specs.Prelude.{◌≡◌, ◌++◌, ◌≤◌, ◌<◌, ◌^◌, [], ℕ, List, Some, length, IfOk, IfSome, OnOk};
ghost use Rattle.std.specs.List.{All, slice_get};
ghost use Rattle.netlist.specs.Lines.{IsLineOf};
ghost use Rattle.statement.specs.Netlists.{Netlist as Equations, signals};
ghost use Rattle.statement.specs.declared.lines.Fault.{Fault as FaultOf};
ghost use Rattle.word_sim.specs.Hits.{AreHits};
ghost use Rattle.word_sim.specs.Words.{HasWidthsOf};
ghost use Rattle.word_sim.specs.inner.Found.{hit_of};
ghost use Rattle.word_sim.specs.inner.Groups.{AreTold, HasRoom, IsBeside, IsFound, IsPass};
ghost use Rattle.word_sim.specs.inner.Packed.{AreGoodFor, AreSettledWords};
ghost use Rattle.observed_points.specs.Points.{ArePoints, point_of};

use crate::batches::Hit;
use crate::detecting::last_marked;
use crate::groups::{Groups, Told, tell_from};
use crate::lanes::tell_ahead;
use crate::overlap::Overlap;
use crate::packing::{Part, packed, used_bits};
use crate::passes::Pass;
use crate::shown::Shown;
use crate::words::settled_words;
use cubes::Pattern;
use events::{Events, Words};
use netlist::{Core, Fault, Netlist};
use observed_points::{Points, point_at};
use regions::Four;
use std::alloc::{AllocError, Global};

/// The words of patterns, settled without a fault.
pub fn good_events<'a>(
    alloc: Global,
    core: &'a Core,
    patterns: &[Pattern],
) -> Result<Events<'a, u64>, AllocError>
    requires few { length patterns.now ≤ 64 }
    requires wide { All (HasWidthsOf core.now) patterns.now }
    ensures netlist { IfOk result (λ e. e.netlist ≡ core.now) }
    ensures good { IfOk result (λ e. AreGoodFor core.now patterns.now e.values) }
    ensures trail { IfOk result (λ e. e.trail ≡ []) }
{
    let values = settled_words(alloc, core, patterns)?;
    let events = Events::new(alloc, core, values, 0)?;
    Ok(events)
}

/// The words of other patterns in place of those before.
pub fn next_patterns(
    alloc: Global,
    events: &mut Events<'_, u64>,
    patterns: &[Pattern],
) -> Result<(), AllocError>
    requires few { length patterns.now ≤ 64 }
    requires wide { All (HasWidthsOf events.old.netlist) patterns.now }
    requires settled { AreSettledWords events.old.netlist events.old.values }
    ensures netlist { events.new.netlist ≡ events.old.netlist }
    ensures settled { AreSettledWords events.old.netlist events.new.values }
    ensures good { OnOk result (AreGoodFor events.old.netlist patterns.now events.new.values) }
    ensures trail { OnOk result (events.new.trail ≡ []) }
{
    let netlist = events.core().netlist();
    let inputs = packed(alloc, Part::Inputs, patterns, netlist.inputs().len())?;
    let state = packed(alloc, Part::Cells, patterns, netlist.cells().len())?;
    events.drive(&Words { fault: None }, &inputs, &state);
    Ok(())
}

/// Adds the hit of a fault that was found.
fn push_hit(
    netlist: &Netlist,
    class: u32,
    found: Option<(u32, usize)>,
    hits: &mut Vec<Hit>,
) -> Result<(), AllocError>
    requires { IfSome found (λ w. (w.0 < 64) × (w.1 < 2 ^ 32)) }
    ensures { OnOk result (hits.new.items ≡ hits.old.items ++ hit_of netlist.now class found) }
{
    if let Some((pattern, number)) = found {
        let point = point_at(netlist, number);
        hits.push(Hit {
            class,
            pattern,
            point,
        })?;
    }
    Ok(())
}

/// What is found of the fault at place k: by the head of its region, or else by itself. The words are then those before.
fn found_of(
    events: &mut Events<'_, u64>,
    pass: &Pass,
    k: usize,
    overlap: &mut Overlap,
    shown: &mut Vec<Shown>,
    told: &mut Vec<Told>,
) -> Option<(u32, usize)>
    requires pass { IsPass events.old.netlist events.old.values pass.now }
    requires trail { events.old.trail ≡ [] }
    requires within { k < length pass.now.faults.now }
    requires told { AreTold events.old.netlist pass.now told.old.items }
    ensures found { (g : ℕ × FaultOf) → slice_get pass.now.faults.now k ≡ Some g → IsFound events.old.netlist pass.now.patterns.now g.1 result }
    ensures told { AreTold events.old.netlist pass.now told.new.items }
    ensures same { events.new ≡ events.old }
{
    if told[k].is_none() {
        tell_from(events, pass, k, overlap, false, shown, told);
    }
    match told[k] {
        Some(found) => found,
        None => last_marked(events, pass.points, pass.used, &pass.faults[k].1),
    }
}

/// The hits of the faults of a pass, one after another: some are told ahead, four heads side by side. The words are then those before.
fn hits_of_pass<'a>(
    alloc: Global,
    events: &mut Events<'a, u64>,
    wide: &mut Option<Events<'a, Four>>,
    pass: &Pass,
    overlap: &mut Overlap,
    shown: &mut Vec<Shown>,
    told: &mut Vec<Told>,
) -> Result<Vec<Hit>, AllocError>
    requires pass { IsPass events.old.netlist events.old.values pass.now }
    requires trail { events.old.trail ≡ [] }
    requires wide { IfSome wide.old (IsBeside events.old.netlist) }
    requires told { AreTold events.old.netlist pass.now told.old.items }
    ensures hits { IfOk result (λ v. AreHits events.old.netlist pass.now.patterns.now pass.now.faults.now v.items) }
    ensures wide { IfSome wide.new (IsBeside events.old.netlist) }
    ensures same { events.new ≡ events.old }
{
    tell_ahead(alloc, events, wide, pass, overlap, shown, told)?;
    let faults = pass.faults;
    let mut hits = Vec::with_capacity(alloc, faults.len())?;
    for k in 0..faults.len() {
        let found = found_of(events, pass, k, overlap, shown, told);
        push_hit(events.core().netlist(), faults[k].0, found, &mut hits)?;
    }
    Ok(hits)
}

/// The hits of faults, one after another. The words are then those before.
pub(crate) fn find_hits<'a>(
    alloc: Global,
    events: &mut Events<'a, u64>,
    wide: &mut Option<Events<'a, Four>>,
    points: &Points,
    groups: &mut Groups,
    patterns: &[Pattern],
    faults: &[(u32, Fault)],
) -> Result<Vec<Hit>, AllocError>
    requires points { ArePoints events.old.netlist points.now.seen.items points.now.first.items points.now.numbers.items }
    requires good { AreGoodFor events.old.netlist patterns.now events.old.values }
    requires lines { All (λ (g : ℕ × FaultOf). IsLineOf events.old.netlist g.1.line) faults.now }
    requires trail { events.old.trail ≡ [] }
    requires room { HasRoom events.old.netlist groups.old.paths.heads.items groups.old.paths.opens.items }
    requires wide { IfSome wide.old (IsBeside events.old.netlist) }
    ensures hits { IfOk result (λ v. AreHits events.old.netlist patterns.now faults.now v.items) }
    ensures same { events.new ≡ events.old }
    ensures room { HasRoom events.old.netlist groups.new.paths.heads.items groups.new.paths.opens.items }
    ensures wide { IfSome wide.new (IsBeside events.old.netlist) }
{
    groups.gather(events.core(), events.values(), faults)?;
    let linked = &groups.linked;
    let telling = &mut groups.telling;
    let pass = Pass {
        points,
        patterns,
        used: used_bits(patterns.len()),
        faults,
        reaches: &linked.reaches,
        links: &linked.links,
        heads: &linked.heads,
        latest: &linked.latest,
    };
    hits_of_pass(
        alloc,
        events,
        wide,
        &pass,
        &mut telling.overlap,
        &mut telling.shown,
        &mut telling.told,
    )
}
