//! Where transition faults are last detected, by any number of patterns: up to 64 of them at a time are simulated in two frames, and then each fault is
//! told of that no later ones detect.
ghost use Rattle.std.specs.Prelude.{◌≡◌, ◌+◌, ◌≤◌, ◌<◌, ◌^◌, ℕ, length, replicate, IfOk, IfSome, OnOk};
ghost use Rattle.std.specs.List.{All, AllZip};
ghost use Rattle.std.specs.Option.{option_map};
ghost use Rattle.netlist.specs.Lines.{IsLineOf};
ghost use Rattle.statement.specs.declared.lines.Fault.{Fault as FaultOf};
ghost use Rattle.transition_frames.specs.Frames.{frames_of, frame_fault};
ghost use Rattle.word_sim.specs.Words.{HasWidthsOf};
ghost use Rattle.word_sim.specs.inner.Found.{IsTold};
ghost use Rattle.word_sim.specs.inner.Packed.{IsUsed};
ghost use Rattle.observed_points.specs.Points.{point_of};
ghost use Rattle.transition_sim.specs.Detections.{LastTransition};
ghost use Rattle.transition_sim.specs.inner.Launches.{AreFramesFrom, AreTold, IsBehind, IsPart};
ghost use Rattle.transition_sim.specs.inner.Tasks.{IsFrame, IsTask};

use crate::launching::{launched, next_frame};
use cubes::Pattern;
use events::Events;
use fault_universe::FaultSet;
use netlist::{Core, Fault, Netlist, NoMemory, Point};
use observed_points::{Points, point_at};
use std::alloc::{AllocError, Global};
use word_sim::{good_events, last_marked, next_patterns, used_bits};

/// What is told of: these faults of a netlist, by these patterns, at its points.
#[derive(Clone, Copy)]
struct Task<'a> {
    core: &'a Core,
    points: &'a Points,
    faults: &'a FaultSet,
    patterns: &'a [Pattern],
}

/// Up to 64 patterns in the first of two frames: their words there, and the place of the first of them among all.
#[derive(Drop)]
struct Part<'a> {
    netlist: &'a Netlist,
    patterns: &'a [Pattern],
    words: &'a [u64],
    points: &'a Points,
    start: usize,
}

/// What was found among some patterns, by places among all.
fn moved(netlist: &Netlist, found: Option<(u32, usize)>, start: usize) -> Option<(u32, Point)>
    requires small { IfSome found (λ w. (w.0 < 64) × (w.1 < 2 ^ 32)) }
    requires start { start + 64 ≤ 2 ^ 32 }
    ensures { result ≡ option_map (λ (w : ℕ × ℕ). (start + w.0, point_of netlist.now w.1)) found }
{
    match found {
        None => None,
        Some((pattern, number)) => Some((start as u32 + pattern, point_at(netlist, number))),
    }
}

/// Where a fault is last detected: what is known, or else what these patterns tell.
fn told_by(
    part: &Part<'_>,
    second: &mut Events<'_, u64>,
    used: u64,
    fault: &Fault,
    known: Option<(u32, Point)>,
) -> Option<(u32, Point)>
    requires part { IsPart part.now.netlist.now part.now.patterns.now part.now.words.now part.now.points.now part.now.start }
    requires behind { IsBehind part.now.netlist.now part.now.words.now second.old }
    requires used { IsUsed (length part.now.patterns.now) used }
    requires line { IsLineOf part.now.netlist.now fault.now.line }
    ensures told { IsTold (frames_of part.now.netlist.now fault.now) part.now.patterns.now part.now.start (frame_fault part.now.netlist.now fault.now) known result }
    ensures same { second.new ≡ second.old }
{
    if known.is_some() {
        return known;
    }
    part.netlist.sound();
    let marks = launched(part.netlist, part.words, used, fault);
    let found = last_marked(second, part.points, marks, fault);
    moved(part.netlist, found, part.start)
}

/// Goes over the faults that no later pattern detects.
fn tell_all(
    part: &Part<'_>,
    second: &mut Events<'_, u64>,
    faults: &FaultSet,
    told: &mut Vec<Option<(u32, Point)>>,
)
    requires part { IsPart part.now.netlist.now part.now.patterns.now part.now.words.now part.now.points.now part.now.start }
    requires behind { IsBehind part.now.netlist.now part.now.words.now second.old }
    requires lines { All (λ (f : FaultOf). IsLineOf part.now.netlist.now f.line) faults.now }
    requires few { length faults.now < 2 ^ 32 }
    requires size { length told.old.items ≡ length faults.now }
    ensures told { AreTold part.now.netlist.now part.now.patterns.now part.now.start faults.now told.old.items told.new.items }
    ensures same { second.new ≡ second.old }
{
    let used = used_bits(part.patterns.len());
    for k in 0..faults.len() {
        let fault = faults.fault(k);
        let known = told[k as usize];
        told[k as usize] = told_by(part, second, used, &fault, known);
    }
}

/// Tells of each fault what up to 64 patterns before a place do, where the later ones tell nothing. Answers where these begin.
fn tell_part(
    alloc: Global,
    task: &Task<'_>,
    first: &mut Events<'_, u64>,
    second: &mut Events<'_, u64>,
    end: usize,
    told: &mut Vec<Option<(u32, Point)>>,
) -> Result<usize, AllocError>
    requires task { IsTask task.now }
    requires first { IsFrame task.now.core.now first.old }
    requires second { IsFrame task.now.core.now second.old }
    requires end { (0 < end) × (end ≤ length task.now.patterns.now) }
    requires later { AreFramesFrom task.now.core.now task.now.patterns.now end task.now.faults.now told.old.items }
    ensures first { IsFrame task.now.core.now first.new }
    ensures second { IsFrame task.now.core.now second.new }
    ensures told { IfOk result (λ start. (start < end) × AreFramesFrom task.now.core.now task.now.patterns.now start task.now.faults.now told.new.items) }
{
    let start = end.saturating_sub(64);
    let some = &task.patterns[start..end];
    next_patterns(alloc, first, some)?;
    next_frame(alloc, task.core, task.points, first, second)?;
    let part = Part {
        netlist: task.core.netlist(),
        patterns: some,
        words: first.values(),
        points: task.points,
        start,
    };
    tell_all(&part, second, task.faults, told);
    Ok(start)
}

/// Tells where each fault is last detected, 64 patterns after another from the last ones on, where nothing is told yet.
fn tell(
    alloc: Global,
    task: &Task<'_>,
    first: &mut Events<'_, u64>,
    second: &mut Events<'_, u64>,
    told: &mut Vec<Option<(u32, Point)>>,
) -> Result<(), AllocError>
    requires task { IsTask task.now }
    requires first { IsFrame task.now.core.now first.old }
    requires second { IsFrame task.now.core.now second.old }
    requires none { told.old.items ≡ replicate (length task.now.faults.now) None }
    ensures { OnOk result (AreFramesFrom task.now.core.now task.now.patterns.now 0 task.now.faults.now told.new.items) }
{
    let mut end = task.patterns.len();
    while end > 0 {
        end = tell_part(alloc, task, first, second, end, told)?;
    }
    Ok(())
}

/// The words of a frame, before any pattern.
#[tactic(auto, using(crate::proofs::FrameWords::frame_good))]
fn frame(alloc: Global, core: &Core) -> Result<Events<'_, u64>, AllocError>
    ensures { IfOk result (IsFrame core.now) }
{
    let events = good_events(alloc, core, &[])?;
    Ok(events)
}

/// The same with the words of a second frame, which are made for it.
fn tell_second(
    alloc: Global,
    task: &Task<'_>,
    first: &mut Events<'_, u64>,
    told: &mut Vec<Option<(u32, Point)>>,
) -> Result<(), AllocError>
    requires task { IsTask task.now }
    requires first { IsFrame task.now.core.now first.old }
    requires none { told.old.items ≡ replicate (length task.now.faults.now) None }
    ensures { OnOk result (AreFramesFrom task.now.core.now task.now.patterns.now 0 task.now.faults.now told.new.items) }
{
    let mut second = frame(alloc, task.core)?;
    let done = tell(alloc, task, first, &mut second, told);
    drop(second);
    done
}

/// The same with those of both.
fn tell_both(
    alloc: Global,
    task: &Task<'_>,
    told: &mut Vec<Option<(u32, Point)>>,
) -> Result<(), AllocError>
    requires task { IsTask task.now }
    requires none { told.old.items ≡ replicate (length task.now.faults.now) None }
    ensures { OnOk result (AreFramesFrom task.now.core.now task.now.patterns.now 0 task.now.faults.now told.new.items) }
{
    let mut first = frame(alloc, task.core)?;
    let done = tell_second(alloc, task, &mut first, told);
    drop(first);
    done
}

/// The same in room that is made for it.
fn tell_anew(
    alloc: Global,
    core: &Core,
    faults: &FaultSet,
    patterns: &[Pattern],
    told: &mut Vec<Option<(u32, Point)>>,
) -> Result<(), AllocError>
    requires wide { All (HasWidthsOf core.now) patterns.now }
    requires lines { All (λ (f : FaultOf). IsLineOf core.now f.line) faults.now }
    requires few { length faults.now < 2 ^ 32 }
    requires count { length patterns.now + 64 ≤ 2 ^ 32 }
    requires none { told.old.items ≡ replicate (length faults.now) None }
    ensures { OnOk result (AreFramesFrom core.now patterns.now 0 faults.now told.new.items) }
{
    let points = Points::of(alloc, core)?;
    let task = Task {
        core,
        points: &points,
        faults,
        patterns,
    };
    let done = tell_both(alloc, &task, told);
    drop(points);
    done
}

/// For each transition fault the last pattern that detects it by launch on capture and the first point at which it does, over any number of patterns.
#[tactic(auto, using(crate::proofs::LastTold::all_told))]
pub fn last_tells2(
    alloc: Global,
    core: &Core,
    faults: &FaultSet,
    patterns: &[Pattern],
) -> Result<Vec<Option<(u32, Point)>>, NoMemory>
    requires wide { All (HasWidthsOf core.now) patterns.now }
    requires lines { All (λ (f : FaultOf). IsLineOf core.now f.line) faults.now }
    requires few_faults { length faults.now < 2 ^ 32 }
    requires count { length patterns.now + 64 ≤ 2 ^ 32 }
    ensures { IfOk result (λ v. AllZip (LastTransition core.now patterns.now) faults.now v.items) }
{
    core.netlist().sound();
    let mut told = vec![in alloc; None; faults.len() as usize]?;
    tell_anew(alloc, core, faults, patterns, &mut told)?;
    Ok(told)
}
