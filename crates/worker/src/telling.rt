//! Where faults are last detected, by workers beside each other, each over the faults that are dealt to it.
ghost use Rattle.std.specs.Prelude.{◌≡◌, ◌+◌, ◌^◌, ◌<◌, ◌≤◌, length, IfOk, vec_len};
ghost use Rattle.std.specs.List.{All, AllZip};
ghost use Rattle.netlist.specs.Lines.{IsLineOf};
ghost use Rattle.statement.specs.declared.lines.Fault.{Fault as FaultOf};
ghost use Rattle.word_sim.specs.Hits.{LastDetected};
ghost use Rattle.word_sim.specs.Words.{HasWidthsOf};
ghost use Rattle.worker.specs.inner.Dealing.{dealt};
ghost use Rattle.worker.specs.inner.Telling.{HaveTold, IsTold};

use crate::adding::add;
use crate::dealing::Deal;
use cubes::Pattern;
use netlist::{Core, Fault, NoMemory, Point};
use std::alloc::Global;
use std::thread;
use std::thread::Threads;
use word_sim::last_tells;

/// Where each of some faults is last detected, if at all.
type Told = Vec<Option<(u32, Point)>>;

/// What is told of the faults of a part.
fn own_tells(
    alloc: Global,
    core: &Core,
    deal: &Deal,
    number: usize,
    faults: &[Fault],
    patterns: &[Pattern],
) -> Result<Told, NoMemory>
    requires wide { All (HasWidthsOf core.now) patterns.now }
    requires lines { All (λ (f : FaultOf). IsLineOf core.now f.line) faults.now }
    requires count { length patterns.now + 64 ≤ 2 ^ 32 }
    ensures { IfOk result (λ v. AllZip (LastDetected core.now patterns.now) (dealt deal.now.numbers.items number faults.now) v.items) }
{
    let own = deal.faults(alloc, number, faults)?;
    last_tells(alloc, core, &own, patterns)
}

/// What a part told next, and the number of what it told after that.
fn next_told(
    part: &Result<Told, NoMemory>,
    next: usize,
) -> Result<(Option<(u32, Point)>, usize), NoMemory>
    requires { IfOk part.now (λ v. next < vec_len v) }
    ensures { IfOk result (λ r. IsTold part.now next r.0 r.1) }
{
    match part {
        Ok(told) => Ok((told[next], next + 1)),
        Err(_) => Err(NoMemory),
    }
}

/// What all parts told, in the order of the faults.
fn gathered(
    alloc: Global,
    core: &Core,
    deal: &Deal,
    faults: &[Fault],
    patterns: &[Pattern],
    parts: &[Result<Told, NoMemory>],
) -> Result<Told, NoMemory>
    requires parts { length parts.now ≡ deal.now.parts }
    requires told { HaveTold core.now patterns.now deal.now.numbers.items faults.now parts.now }
    ensures { IfOk result (λ v. AllZip (LastDetected core.now patterns.now) faults.now v.items) }
{
    let mut nexts = vec![in alloc; 0usize; parts.len()]?;
    let mut told = Vec::new(alloc);
    for fault in faults {
        let part = deal.part(fault);
        let (one, after) = next_told(&parts[part], nexts[part])?;
        nexts[part] = after;
        add(&mut told, one)?;
    }
    Ok(told)
}

/// What each part tells of the faults that are dealt to it.
fn tells_of_parts<R: Threads + Sync>(
    rt: &R,
    alloc: Global,
    core: &Core,
    deal: &Deal,
    faults: &[Fault],
    patterns: &[Pattern],
    workers: u32,
) -> Result<Vec<Result<Told, NoMemory>>, NoMemory>
    requires wide { All (HasWidthsOf core.now) patterns.now }
    requires lines { All (λ (f : FaultOf). IsLineOf core.now f.line) faults.now }
    requires count { length patterns.now + 64 ≤ 2 ^ 32 }
    ensures len { IfOk result (λ v. length v.items ≡ workers) }
    ensures told { IfOk result (λ v. HaveTold core.now patterns.now deal.now.numbers.items faults.now v.items) }
{
    let part = move |number: usize| -> Result<Told, NoMemory>
        requires { All (HasWidthsOf core.now) patterns.now × All (λ (f : FaultOf). IsLineOf core.now f.line) faults.now × (length patterns.now + 64 ≤ 2 ^ 32) }
        ensures { IfOk result (λ v. AllZip (LastDetected core.entry.now patterns.entry.now) (dealt deal.entry.now.numbers.items number faults.entry.now) v.items) }
    { own_tells(alloc, core, deal, number, faults, patterns) };
    match thread::map_indices(rt, alloc, workers as usize, &part) {
        Ok(parts) => Ok(parts),
        Err(_) => Err(NoMemory),
    }
}

/// For each fault the last pattern that detects it and the first point at which it does. Each worker goes over the faults that are dealt to it.
pub fn last_tells_beside<R: Threads + Sync>(
    rt: &R,
    alloc: Global,
    core: &Core,
    faults: &[Fault],
    patterns: &[Pattern],
    workers: u32,
) -> Result<Told, NoMemory>
    requires wide { All (HasWidthsOf core.now) patterns.now }
    requires lines { All (λ (f : FaultOf). IsLineOf core.now f.line) faults.now }
    requires count { length patterns.now + 64 ≤ 2 ^ 32 }
    requires workers { 0 < workers }
    ensures { IfOk result (λ v. AllZip (LastDetected core.now patterns.now) faults.now v.items) }
{
    let deal = Deal::new(alloc, core, workers)?;
    let parts = tells_of_parts(rt, alloc, core, &deal, faults, patterns, workers)?;
    gathered(alloc, core, &deal, faults, patterns, &parts)
}
