//! Where faults are last detected, by any number of patterns: 64 after another from the last ones on, over the faults of which nothing is told yet.
ghost use Rattle.std.specs.Prelude.{◌≡◌, ◌==◌, ◌+◌, ◌-◌, ◌≤◌, ◌<◌, ◌^◌, ◌∷◌, ℕ, List, Option, None, Some, drop, take, length, replicate, IfOk, OnOk, if◌then◌else◌};
ghost use Rattle.std.specs.List.{All, AllZip};
ghost use Rattle.netlist.specs.Lines.{IsLineOf};
ghost use Rattle.statement.specs.Netlists.{Netlist as Equations};
ghost use Rattle.statement.specs.declared.lines.Fault.{Fault as FaultOf};
ghost use Rattle.statement.specs.declared.lines.Point.{Point as PointOf};
ghost use Rattle.statement.specs.Patterns.{Pattern as Bits};
ghost use Rattle.word_sim.specs.declared.batches.Hit.{Hit as HitOf};
ghost use Rattle.word_sim.specs.Hits.{AreHits, LastDetected};
ghost use Rattle.word_sim.specs.Words.{HasWidthsOf};
ghost use Rattle.word_sim.specs.inner.Found.{AreFrom, IsTold, TellFrom, untold};

use crate::batches::Hit;
use crate::simulator::Simulator;
use cubes::Pattern;
use netlist::{Core, Fault, NoMemory, Point};
use std::alloc::{AllocError, Global};

/// The place of a fault has 32 bits.
const MOST_FAULTS: usize = 1 << 32;

/// The faults of which nothing is told, by their places.
fn list_untold(
    faults: &[Fault],
    told: &[Option<(u32, Point)>],
    rest: &mut Vec<(u32, Fault)>,
) -> Result<(), AllocError>
    requires size { length told.now ≡ length faults.now }
    requires few { length faults.now ≤ 2 ^ 32 }
    ensures { OnOk result (rest.new.items ≡ untold 0 faults.now told.now) }
{
    rest.clear();
    for k in 0..faults.len() {
        let known = told[k];
        if known.is_none() {
            rest.push((k as u32, faults[k]))?;
        }
    }
    Ok(())
}

/// What a hit tells of the fault at place k, and the place of the next hit.
fn told_by_hit(k: usize, hit: &Hit, next: usize, start: usize) -> (Option<(u32, Point)>, usize)
    requires small { hit.now.pattern < 64 }
    requires start { start + 64 ≤ 2 ^ 32 }
    requires next { next < 2 ^ 63 }
    ensures { result ≡ (if hit.now.class == k then (Some (start + hit.now.pattern, hit.now.point), next + 1) else (None, next)) }
{
    if hit.class as usize == k {
        (Some((start as u32 + hit.pattern, hit.point)), next + 1)
    } else {
        (None, next)
    }
}

/// Where the fault at place k, of which nothing is told, is last detected by these hits from the next on, and the next after.
fn next_hit(k: usize, hits: &[Hit], next: usize, start: usize) -> (Option<(u32, Point)>, usize)
    requires small { All (λ (h : HitOf). h.pattern < 64) hits.now }
    requires start { start + 64 ≤ 2 ^ 32 }
    ensures { (n : Equations) (part : List Bits) (f : FaultOf) (faults : List FaultOf) (told : List (Option (ℕ × PointOf)))
        → AreHits n part ((k, f) ∷ untold (k + 1) faults told) (drop next hits.now)
        → IsTold n part start f None result.0 × AreHits n part (untold (k + 1) faults told) (drop result.1 hits.now) }
{
    if next >= hits.len() {
        return (None, next);
    }
    told_by_hit(k, &hits[next], next, start)
}

/// The same of a fault of which this is told.
fn told_by(
    known: Option<(u32, Point)>,
    k: usize,
    hits: &[Hit],
    next: usize,
    start: usize,
) -> (Option<(u32, Point)>, usize)
    requires small { All (λ (h : HitOf). h.pattern < 64) hits.now }
    requires start { start + 64 ≤ 2 ^ 32 }
    ensures { (n : Equations) (part : List Bits) (f : FaultOf) (faults : List FaultOf) (told : List (Option (ℕ × PointOf)))
        → AreHits n part (untold k (f ∷ faults) (known ∷ told)) (drop next hits.now)
        → IsTold n part start f known result.0 × AreHits n part (untold (k + 1) faults told) (drop result.1 hits.now) }
{
    match known {
        Some(_) => (known, next),
        None => next_hit(k, hits, next, start),
    }
}

/// Tells of each fault of which nothing is told what the hits of the patterns from a place on say.
fn tell_all(start: usize, faults: &[Fault], hits: &[Hit], told: &mut Vec<Option<(u32, Point)>>)
    requires small { All (λ (h : HitOf). h.pattern < 64) hits.now }
    requires start { start + 64 ≤ 2 ^ 32 }
    requires size { length told.old.items ≡ length faults.now }
    ensures { TellFrom start faults.now hits.now told.old.items told.new.items }
{
    let mut next = 0;
    for k in 0..faults.len() {
        let known = told[k];
        let (last, more) = told_by(known, k, hits, next, start);
        told[k] = last;
        next = more;
    }
}

/// What a part of the patterns tells of the faults of which nothing is told.
fn tell_part(
    alloc: Global,
    simulator: &mut Simulator<'_>,
    patterns: &[Pattern],
    start: usize,
    end: usize,
    faults: &[Fault],
    rest: &mut Vec<(u32, Fault)>,
    told: &mut Vec<Option<(u32, Point)>>,
) -> Result<(), AllocError>
    requires wide { All (HasWidthsOf simulator.old) patterns.now }
    requires lines { All (λ (f : FaultOf). IsLineOf simulator.old f.line) faults.now }
    requires count { length patterns.now + 64 ≤ 2 ^ 32 }
    requires places { length faults.now ≤ 2 ^ 32 }
    requires order { start ≤ end }
    requires end { end ≤ length patterns.now }
    requires few { end ≤ start + 64 }
    requires later { AreFrom simulator.old patterns.now end faults.now told.old.items }
    ensures told { OnOk result (AreFrom simulator.old patterns.now start faults.now told.new.items) }
    ensures simulator { simulator.new ≡ simulator.old }
{
    list_untold(faults, told, rest)?;
    let part = &patterns[start..end];
    let hits = simulator.batch_hits(alloc, part, rest)?;
    tell_all(start, faults, &hits, told);
    Ok(())
}

fn none_told(alloc: Global, count: usize) -> Result<Vec<Option<(u32, Point)>>, AllocError>
    ensures { IfOk result (λ v. v.items ≡ replicate count None) }
{
    let mut told = Vec::with_capacity(alloc, count)?;
    for _done in 0..count {
        told.push(None)?;
    }
    Ok(told)
}

/// Tells where each fault is last detected, 64 patterns after another from the last ones on.
fn tell_parts(
    alloc: Global,
    simulator: &mut Simulator<'_>,
    patterns: &[Pattern],
    faults: &[Fault],
    told: &mut Vec<Option<(u32, Point)>>,
) -> Result<(), AllocError>
    requires wide { All (HasWidthsOf simulator.old) patterns.now }
    requires lines { All (λ (f : FaultOf). IsLineOf simulator.old f.line) faults.now }
    requires count { length patterns.now + 64 ≤ 2 ^ 32 }
    requires places { length faults.now ≤ 2 ^ 32 }
    requires nothing { told.old.items ≡ replicate (length faults.now) None }
    ensures { OnOk result (AllZip (LastDetected simulator.old patterns.now) faults.now told.new.items) }
{
    let mut rest = Vec::new(alloc);
    let mut end = patterns.len();
    while end > 0 {
        let start = if end > 64 { end - 64 } else { 0 };
        tell_part(
            alloc, simulator, patterns, start, end, faults, &mut rest, told,
        )?;
        end = start;
    }
    Ok(())
}

/// Where each fault is last detected.
fn find_last(
    alloc: Global,
    core: &Core,
    faults: &[Fault],
    patterns: &[Pattern],
) -> Result<Vec<Option<(u32, Point)>>, AllocError>
    requires wide { All (HasWidthsOf core.now) patterns.now }
    requires lines { All (λ (f : FaultOf). IsLineOf core.now f.line) faults.now }
    requires count { length patterns.now + 64 ≤ 2 ^ 32 }
    ensures { IfOk result (λ v. AllZip (LastDetected core.now patterns.now) faults.now v.items) }
{
    if faults.len() > MOST_FAULTS {
        return Err(AllocError);
    }
    let mut told = none_told(alloc, faults.len())?;
    let mut simulator = Simulator::made(alloc, core)?;
    let done = tell_parts(alloc, &mut simulator, patterns, faults, &mut told);
    drop(simulator);
    match done {
        Ok(()) => Ok(told),
        Err(failed) => Err(failed),
    }
}

/// For each fault the last pattern that detects it and the first point at which it does, over any number of patterns.
pub fn last_tells(
    alloc: Global,
    core: &Core,
    faults: &[Fault],
    patterns: &[Pattern],
) -> Result<Vec<Option<(u32, Point)>>, NoMemory>
    requires wide { All (HasWidthsOf core.now) patterns.now }
    requires lines { All (λ (f : FaultOf). IsLineOf core.now f.line) faults.now }
    requires count { length patterns.now + 64 ≤ 2 ^ 32 }
    ensures { IfOk result (λ v. AllZip (LastDetected core.now patterns.now) faults.now v.items) }
{
    find_last(alloc, core, faults, patterns).map_err(|_| NoMemory)
}
