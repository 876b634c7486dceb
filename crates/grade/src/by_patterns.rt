//! The grades of lines by patterns.
//!
//! Which pattern first detects a line is asked of the patterns in reverse order, of which it is the last one, 64 a batch. Where that shows it first is
//! seen pattern by pattern (`spotting`): of the points that it reaches the one strobed first is taken.
ghost use Rattle.std.specs.Prelude.{[], ◌≡◌, ◌+◌, ◌-◌, ◌*◌, ◌^◌, ◌<◌, ◌≤◌, length, reverse, IfOk, MatchOption};
ghost use Rattle.std.specs.List.{All, AllZip};
ghost use Rattle.netlist.specs.Lines.{IsLineOf};
ghost use Rattle.statement.specs.declared.lines.Fault.{Fault as FaultOf};
ghost use Rattle.scan_insert.specs.Scanned.{AreChainsOf};
ghost use Rattle.word_sim.specs.Words.{HasWidthsOf};
ghost use Rattle.word_sim.specs.inner.Packed.{AreGoodFor};
ghost use Rattle.grade.specs.Patterns.{IsPatternGrade};
ghost use Rattle.grade.specs.inner.Keys.{IsTimingOf};
ghost use Rattle.grade.specs.inner.ByPatterns.{AreAsked, AreGradedUpTo, ArePatternGrades, IsAtPlace, IsBatch, IsBehind, IsElsewhere, IsGradedAt, IsOffset, IsOutside, IsThere};

use crate::batching::batch_at;
use crate::grade::Grade;
use crate::keys::{Timing, strobe_at, timing_of};
use crate::spotting::spot;
use cubes::Pattern;
use events::Events;
use netlist::{Core, Fault, NoMemory, Point};
use regions::Paths;
use run_report::Strobe;
use scan_insert::Chains;
use std::alloc::{AllocError, Global};
use word_sim::{good_events, last_tells, next_patterns};

/// A word has so many patterns.
const BATCH: usize = 64;

/// What all batches are given: the design, when what is observed of it is strobed, the patterns in reverse order, and the lines, of each the last of
/// these patterns that detects it, if one does.
#[derive(Clone, Copy)]
struct Asked<'a> {
    core: &'a Core,
    timing: &'a Timing<'a>,
    latest: &'a [Pattern],
    faults: &'a [Fault],
    told: &'a [Option<(u32, Point)>],
}

/// How far a place lies behind the first of a batch, where it is one of it.
fn offset_within(place: u32, start: usize) -> Option<u32>
    ensures { MatchOption result (IsOutside place start) (IsOffset place start) }
{
    let place = place as usize;
    if place < start {
        return None;
    }
    let offset = place - start;
    if offset >= BATCH {
        return None;
    }
    Some(offset as u32)
}

/// The place in the batch from a place on of the pattern that is told, where it is one of it.
fn place_within(told: Option<(u32, Point)>, start: usize) -> Option<u32>
    ensures { MatchOption result (IsElsewhere told start) (IsThere told start) }
{
    match told {
        None => None,
        Some((place, _point)) => offset_within(place, start),
    }
}

/// The place in order of a pattern, by its place in reverse order.
fn place_in_order(count: usize, later: usize) -> usize
    requires { later < count }
    ensures { result ≡ count - 1 - later }
{
    count - 1 - later
}

/// The grade by the key of a strobe, for the pattern at a place.
#[tactic(auto, using(run_report::proofs::CycleLemmas::small_product))]
fn grade_at(longest: u64, place: u64, key: u64) -> Grade
    requires longest { longest ≤ 8000000 }
    requires place { place < 2 ^ 32 }
    ensures { IsAtPlace longest place key result }
{
    let Strobe { cycle, output } = strobe_at(key);
    Grade::Detected(cycle + place * (longest + 1), output)
}

/// The grade of the line at a place once a batch is asked. The words are then those before.
fn regraded(
    events: &mut Events<'_, u64>,
    paths: &Paths,
    asked: &Asked<'_>,
    start: usize,
    i: usize,
    grade: Grade,
) -> Grade
    requires asked { AreAsked asked.now }
    requires batch { IsBatch asked.now start events.old paths.now }
    requires within { i < length asked.now.faults.now }
    requires before { IsGradedAt asked.now start i grade }
    ensures graded { IsGradedAt asked.now (start + 64) i result }
    ensures same { events.new ≡ events.old }
{
    asked.core.netlist().sound();
    match place_within(asked.told[i], start) {
        None => grade,
        Some(j) => {
            let key = spot(events, paths, asked.timing, &asked.faults[i], j);
            let place = place_in_order(asked.latest.len(), start + j as usize);
            grade_at(asked.timing.chains.longest() as u64, place as u64, key)
        }
    }
}

/// The grades of all lines once a batch is asked. The words are then those before.
fn grade_batch(
    events: &mut Events<'_, u64>,
    paths: &Paths,
    asked: &Asked<'_>,
    start: usize,
    grades: Vec<Grade>,
) -> Vec<Grade>
    requires asked { AreAsked asked.now }
    requires batch { IsBatch asked.now start events.old paths.now }
    requires before { AreGradedUpTo asked.now start grades.items }
    ensures graded { AreGradedUpTo asked.now (start + 64) result.items }
    ensures same { events.new ≡ events.old }
{
    let mut grades = grades;
    for i in 0..asked.faults.len() {
        let grade = grades[i];
        grades[i] = regraded(events, paths, asked, start, i, grade);
    }
    grades
}

/// The grades of all lines once the batch from a place on is settled and asked.
fn grade_part(
    alloc: Global,
    events: &mut Events<'_, u64>,
    paths: &mut Paths,
    asked: &Asked<'_>,
    start: usize,
    grades: Vec<Grade>,
) -> Result<Vec<Grade>, AllocError>
    requires asked { AreAsked asked.now }
    requires start { start ≤ length asked.now.latest.now }
    requires before { IsBehind asked.now start events.old paths.old grades.items }
    ensures { IfOk result (λ grades. IsBehind asked.now (start + 64) events.new paths.new grades.items) }
{
    next_patterns(alloc, events, batch_at(asked.latest, start, BATCH))?;
    paths.open(events.core(), events.values());
    Ok(grade_batch(events, paths, asked, start, grades))
}

/// The grades of all lines, batch by batch.
fn grade_parts(
    alloc: Global,
    events: &mut Events<'_, u64>,
    paths: &mut Paths,
    asked: &Asked<'_>,
    grades: Vec<Grade>,
) -> Result<Vec<Grade>, AllocError>
    requires asked { AreAsked asked.now }
    requires before { IsBehind asked.now 0 events.old paths.old grades.items }
    ensures { IfOk result (λ grades. AreGradedUpTo asked.now (length asked.now.latest.now) grades.items) }
{
    let mut grades = grades;
    for batch in 0..asked.latest.len().div_ceil(BATCH) {
        grades = grade_part(alloc, events, paths, asked, batch * BATCH, grades)?;
    }
    Ok(grades)
}

/// The grades of all lines, by words that are settled.
fn grade_settled(
    alloc: Global,
    events: &mut Events<'_, u64>,
    asked: &Asked<'_>,
) -> Result<Vec<Grade>, AllocError>
    requires asked { AreAsked asked.now }
    requires netlist { events.old.netlist ≡ asked.now.core.now }
    requires good { AreGoodFor asked.now.core.now [] events.old.values }
    ensures { IfOk result (λ grades. ArePatternGrades asked.now grades.items) }
{
    let netlist = asked.core.netlist();
    netlist.sound();
    let mut paths = Paths::new(alloc, netlist)?;
    let grades = vec![in alloc; Grade::Undetected; asked.faults.len()]?;
    grade_parts(alloc, events, &mut paths, asked, grades)
}

/// The grades of all lines.
fn grade_all(alloc: Global, asked: &Asked<'_>) -> Result<Vec<Grade>, AllocError>
    requires { AreAsked asked.now }
    ensures { IfOk result (λ grades. ArePatternGrades asked.now grades.items) }
{
    let mut events = good_events(alloc, asked.core, &[])?;
    let grades = grade_settled(alloc, &mut events, asked);
    drop(events);
    grades
}

/// The grade of each of these lines, by patterns in reverse order.
fn latest_grades(
    alloc: Global,
    core: &Core,
    timing: &Timing<'_>,
    latest: &[Pattern],
    faults: &[Fault],
) -> Result<Vec<Grade>, NoMemory>
    requires timing { IsTimingOf core.now timing.now }
    requires lines { All (λ (f : FaultOf). IsLineOf core.now f.line) faults.now }
    requires wide { All (HasWidthsOf core.now) latest.now }
    requires count { length latest.now + 64 ≤ 2 ^ 32 }
    ensures { IfOk result (λ grades. AllZip (IsPatternGrade core.now timing.now.chains.now (reverse latest.now)) faults.now grades.items) }
{
    let told = last_tells(alloc, core, faults, latest)?;
    let asked = Asked {
        core,
        timing,
        latest,
        faults,
        told: told.as_slice(),
    };
    let grades = grade_all(alloc, &asked)?;
    Ok(grades)
}

/// The grade of each of these lines of a design, by patterns.
pub(crate) fn pattern_grades(
    alloc: Global,
    core: &Core,
    chains: &Chains,
    patterns: Vec<Pattern>,
    faults: &[Fault],
) -> Result<Vec<Grade>, NoMemory>
    requires chains { AreChainsOf core.now chains.now }
    requires lines { All (λ (f : FaultOf). IsLineOf core.now f.line) faults.now }
    requires wide { All (HasWidthsOf core.now) patterns.items }
    requires count { length patterns.items + 64 ≤ 2 ^ 32 }
    ensures { IfOk result (λ grades. AllZip (IsPatternGrade core.now chains.now patterns.items) faults.now grades.items) }
{
    let timing = timing_of(alloc, core, chains)?;
    let mut latest = patterns;
    latest.reverse();
    let grades = latest_grades(alloc, core, &timing, latest.as_slice(), faults);
    drop(latest);
    drop(timing);
    grades
}
