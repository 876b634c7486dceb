//! Patterns parted into those in front, over which rounds go, and a tail, which stays as it is; and both put together again.
ghost use Rattle.std.specs.Prelude.{◌≡◌, ◌+◌, ◌++◌, ◌∷◌, ◌<◌, ◌≤◌, ◌^◌, [], List, ℕ, Option, IfOk, OnOk, length, map, drop};
ghost use Rattle.std.specs.List.{All, AllZip};
ghost use Rattle.statement.specs.declared.lines.Fault.{Fault as FaultOf};
ghost use Rattle.statement.specs.declared.lines.Point.{Point as PointOf};
ghost use Rattle.statement.specs.Netlists.{Netlist as Equations};
ghost use Rattle.netlist.specs.Lines.{IsLineOf};
ghost use Rattle.word_sim.specs.Hits.{LastDetected};
ghost use Rattle.word_sim.specs.Never.{unmarked};
ghost use Rattle.word_sim.specs.Words.{HasWidthsOf};
ghost use Rattle.fewer_patterns.specs.inner.Aims.{IsAim};
ghost use Rattle.fewer_patterns.specs.inner.Enough.{is_settled, is_told};
ghost use Rattle.fewer_patterns.specs.inner.Fronts.{AreJoined, IsFront};
ghost use Rattle.fewer_patterns.specs.inner.Joined.{first_told, joined, others_told, unsettled};

use crate::aims::Aim;
use cubes::Pattern;
use flat_netlist::{at, fill, number_of, put};
use netlist::{Fault, NoMemory, Point};
use std::alloc::{AllocError, Global};
use std::thread::Threads;
use word_sim::unmarked;
use worker::last_tells_beside;

/// So few patterns are all in front.
const FEW: usize = 64;

/// Where each of some faults is last detected, if at all.
pub(crate) type LastTold = Vec<Option<(u32, Point)>>;

/// Patterns, and where each of some faults is last detected by them.
#[derive(Drop)]
pub struct ToldPatterns {
    pub patterns: Vec<Pattern>,
    pub last: Vec<Option<(u32, Point)>>,
}

/// Patterns, where each of some faults is last detected by them, and how many of them are needed for that.
#[derive(Drop)]
pub(crate) struct Made {
    pub patterns: Vec<Pattern>,
    pub last: LastTold,
    pub needed: u32,
}

/// The patterns in front, with the faults that are left to them, and the tail.
#[derive(Drop)]
pub(crate) struct Front {
    pub left: Vec<Fault>,
    pub made: Made,
    pub tail: Vec<Pattern>,
}

/// How many faults are left to each pattern.
fn left_counts(
    alloc: Global,
    patterns: u32,
    last: &[Option<(u32, Point)>],
) -> Result<Vec<u32>, AllocError> {
    let mut counts = Vec::new(alloc);
    fill(&mut counts, patterns, 0)?;
    for one in last {
        if let Some((place, _)) = one {
            let count = at(&counts, *place).wrapping_add(1);
            put(&mut counts, *place, count);
        }
    }
    Ok(counts)
}

/// To how many patterns a fault is left: so many are kept.
pub(crate) fn needed(
    alloc: Global,
    patterns: u32,
    last: &[Option<(u32, Point)>],
) -> Result<u32, AllocError> {
    let counts = left_counts(alloc, patterns, last)?;
    let mut needed: u32 = 0;
    for count in &counts {
        needed = needed.wrapping_add((*count > 0) as u32);
    }
    Ok(needed)
}

fn sum_of(counts: &[u32]) -> u64 {
    let mut sum: u64 = 0;
    for count in counts {
        sum = sum.wrapping_add(*count as u64);
    }
    sum
}

/// From which place on the patterns detect at least seven tenths of what is detected: where so many faults are left to each. Of few patterns these
/// would be most, so there is no tail.
fn tail_start(counts: &[u32]) -> usize {
    if counts.len() <= FEW {
        return counts.len();
    }
    let mut before = sum_of(counts);
    let most = (before / 10).wrapping_mul(3);
    for place in (0..counts.len()).rev() {
        if before <= most {
            return place + 1;
        }
        before = before.saturating_sub(counts[place] as u64);
    }
    0
}

/// Where the tail begins.
pub(crate) fn tail_of(
    alloc: Global,
    patterns: usize,
    last: &[Option<(u32, Point)>],
) -> Result<usize, AllocError>
    ensures { IfOk result (λ start. start ≤ patterns) }
{
    let counts = left_counts(alloc, number_of(patterns), last)?;
    Ok(tail_start(&counts).min(patterns))
}

/// Whether a pattern from this place on is the last that detects it, or none does.
fn is_settled(start: usize, one: &Option<(u32, Point)>) -> bool
    ensures { result ≡ is_settled start one.now }
{
    match one {
        None => true,
        Some((place, _)) => start <= *place as usize,
    }
}

/// Marks the faults that the patterns before a place needn't detect.
fn settled_marks(
    alloc: Global,
    start: usize,
    last: &[Option<(u32, Point)>],
) -> Result<Vec<bool>, AllocError>
    ensures { IfOk result (λ v. v.items ≡ map (is_settled start) last.now) }
{
    let mut marks = Vec::with_capacity(alloc, last.len())?;
    for one in last {
        marks.push(is_settled(start, one))?;
    }
    Ok(marks)
}

/// Puts what is told of a fault behind, unless it is settled.
fn push_unsettled(
    told: &mut LastTold,
    start: usize,
    one: &Option<(u32, Point)>,
) -> Result<(), AllocError>
    ensures { OnOk result (told.new.items ≡ told.old.items ++ unsettled start (one.now ∷ [])) }
{
    if !is_settled(start, one) {
        told.push(*one)?;
    }
    Ok(())
}

/// What is told of the faults that aren't settled.
fn unsettled(
    alloc: Global,
    start: usize,
    last: &[Option<(u32, Point)>],
) -> Result<LastTold, AllocError>
    ensures { IfOk result (λ v. v.items ≡ unsettled start last.now) }
{
    let mut told = Vec::new(alloc);
    for k in 0..last.len() {
        push_unsettled(&mut told, start, &last[k])?;
    }
    Ok(told)
}

/// The faults that the patterns before a place have to detect.
fn unsettled_faults(
    alloc: Global,
    faults: &[Fault],
    last: &[Option<(u32, Point)>],
    start: usize,
) -> Result<Vec<Fault>, AllocError>
    requires { length last.now ≡ length faults.now }
    ensures exactly { IfOk result (λ v. v.items ≡ unmarked (map (is_settled start) last.now) faults.now) }
    ensures lines { IfOk result (λ v. (n : Equations) → All (λ (f : FaultOf). IsLineOf n f.line) faults.now → All (λ (f : FaultOf). IsLineOf n f.line) v.items) }
{
    let settled = settled_marks(alloc, start, last)?;
    unmarked(alloc, faults, &settled)
}

/// Parts patterns at a place. The faults of which one in front is the last to detect each are left to these.
pub(crate) fn parted(
    alloc: Global,
    faults: &[Fault],
    patterns: Vec<Pattern>,
    last: &[Option<(u32, Point)>],
    start: usize,
) -> Result<Front, NoMemory>
    requires size { length last.now ≡ length faults.now }
    requires start { start ≤ length patterns.items }
    ensures front { IfOk result (λ front. IsFront start faults.now patterns.items last.now front) }
    ensures lines { IfOk result (λ front. (n : Equations) → All (λ (f : FaultOf). IsLineOf n f.line) faults.now → All (λ (f : FaultOf). IsLineOf n f.line) front.left.items) }
{
    let left = unsettled_faults(alloc, faults, last, start)?;
    let last = unsettled(alloc, start, last)?;
    let mut patterns = patterns;
    let tail = patterns.split_off(start)?;
    let needed = needed(alloc, number_of(patterns.len()), &last)?;
    let made = Made {
        patterns,
        last,
        needed,
    };
    Ok(Front { left, made, tail })
}

/// Whether something was told.
pub(crate) fn is_told(one: &Option<(u32, Point)>) -> bool
    ensures { result ≡ is_told one.now }
{
    one.is_some()
}

/// Marks the faults of which something was told.
fn told_marks(alloc: Global, last: &[Option<(u32, Point)>]) -> Result<Vec<bool>, AllocError>
    ensures { IfOk result (λ v. v.items ≡ map is_told last.now) }
{
    let mut marks = Vec::with_capacity(alloc, last.len())?;
    for one in last {
        marks.push(is_told(one))?;
    }
    Ok(marks)
}

/// The faults of which nothing was told.
fn others_of(
    alloc: Global,
    faults: &[Fault],
    last: &[Option<(u32, Point)>],
) -> Result<Vec<Fault>, AllocError>
    requires { length last.now ≡ length faults.now }
    ensures exactly { IfOk result (λ v. v.items ≡ unmarked (map is_told last.now) faults.now) }
    ensures lines { IfOk result (λ v. (n : Equations) → All (λ (f : FaultOf). IsLineOf n f.line) faults.now → All (λ (f : FaultOf). IsLineOf n f.line) v.items) }
{
    let marks = told_marks(alloc, last)?;
    unmarked(alloc, faults, &marks)
}

/// What patterns tell of the faults of which nothing was told: other bits may detect such a one.
fn tells_of_others<R: Threads + Sync>(
    rt: &R,
    aim: &Aim<'_>,
    last: &[Option<(u32, Point)>],
    patterns: &[Pattern],
) -> Result<LastTold, NoMemory>
    requires aim { IsAim aim.now }
    requires size { length last.now ≡ length aim.now.faults.now }
    requires wide { All (HasWidthsOf aim.now.core.now) patterns.now }
    requires few { length patterns.now ≤ aim.now.most }
    ensures { IfOk result (λ v. AllZip (LastDetected aim.now.core.now patterns.now) (unmarked (map is_told last.now) aim.now.faults.now) v.items) }
{
    let alloc = aim.alloc;
    let others = others_of(alloc, aim.faults, last)?;
    if others.is_empty() {
        return Ok(Vec::new(alloc));
    }
    let workers = aim.rounds.workers;
    last_tells_beside(rt, alloc, aim.core, &others, patterns, workers)
}

/// Places of what comes next of what is told.
#[derive(Clone, Copy)]
struct Next {
    front: usize,
    never: usize,
}

/// What comes next, and the place of what comes behind it.
fn next_of(told: &[Option<(u32, Point)>], next: usize) -> (Option<(u32, Point)>, usize)
    requires { next ≤ length told.now }
    ensures within { result.1 ≤ length told.now }
    ensures first { result.0 ≡ first_told (drop next told.now) }
    ensures others { drop result.1 told.now ≡ others_told (drop next told.now) }
{
    if next == told.len() {
        return (None, next);
    }
    (told[next], next + 1)
}

/// What is told of a fault now, where this was told of it, and the places of what comes next.
fn join_one(
    start: usize,
    less: usize,
    one: &Option<(u32, Point)>,
    front: &[Option<(u32, Point)>],
    never: &[Option<(u32, Point)>],
    next: Next,
) -> (Option<(u32, Point)>, Next)
    requires less { less ≤ start }
    requires next { (next.front ≤ length front.now) × (next.never ≤ length never.now) }
    ensures within { (result.1.front ≤ length front.now) × (result.1.never ≤ length never.now) }
    ensures told { (ls : List (Option (ℕ × PointOf))) → joined start less (one.now ∷ ls) (drop next.front front.now) (drop next.never never.now)
        ≡ result.0 ∷ joined start less ls (drop result.1.front front.now) (drop result.1.never never.now) }
{
    match one {
        None => {
            let (told, never) = next_of(never, next.never);
            (told, Next { never, ..next })
        }
        Some((place, point)) if start <= *place as usize => {
            let place = (*place as usize - less) as u32;
            (Some((place, *point)), next)
        }
        Some(_) => {
            let (told, front) = next_of(front, next.front);
            (told, Next { front, ..next })
        }
    }
}

/// What is told of all faults now, where the tail stands so many places before.
fn joined(
    alloc: Global,
    start: usize,
    less: usize,
    last: &[Option<(u32, Point)>],
    front: &[Option<(u32, Point)>],
    never: &[Option<(u32, Point)>],
) -> Result<LastTold, AllocError>
    requires { less ≤ start }
    ensures { IfOk result (λ v. v.items ≡ joined start less last.now front.now never.now) }
{
    let mut told = Vec::with_capacity(alloc, last.len())?;
    let mut next = Next { front: 0, never: 0 };
    for k in 0..last.len() {
        let (one, after) = join_one(start, less, &last[k], front, never, next);
        told.push(one)?;
        next = after;
    }
    Ok(told)
}

/// Patterns in place of those in front, with the tail behind them, and what they tell of all faults, of which this was told.
pub(crate) fn with_tail<R: Threads + Sync>(
    rt: &R,
    aim: &Aim<'_>,
    start: usize,
    last: &[Option<(u32, Point)>],
    front: Made,
    tail: Vec<Pattern>,
) -> Result<ToldPatterns, NoMemory>
    requires aim { IsAim aim.now }
    requires size { length last.now ≡ length aim.now.faults.now }
    requires wide { All (HasWidthsOf aim.now.core.now) front.patterns.items }
    requires few { (length front.patterns.items ≤ start) × (start ≤ aim.now.most) }
    ensures { IfOk result (λ all. AreJoined aim.now.core.now start aim.now.faults.now last.now front.patterns.items front.last.items tail.items all) }
{
    let never = tells_of_others(rt, aim, last, &front.patterns)?;
    let less = start - front.patterns.len();
    let last = joined(aim.alloc, start, less, last, &front.last, &never)?;
    let mut patterns = front.patterns;
    let mut tail = tail;
    patterns.append(&mut tail)?;
    Ok(ToldPatterns { patterns, last })
}
