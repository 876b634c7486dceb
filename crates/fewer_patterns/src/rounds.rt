//! Rounds of relaxing and merging, each verified.
ghost use Rattle.std.specs.Prelude.{◌≡◌, ◌+◌, ◌<◌, ◌≤◌, ◌^◌, true, IfOk, IfSome, length};
ghost use Rattle.std.specs.List.{All, AllZip};
ghost use Rattle.statement.specs.declared.lines.Fault.{Fault as FaultOf};
ghost use Rattle.netlist.specs.Holds.{AreHoldsOf};
ghost use Rattle.netlist.specs.Lines.{IsLineOf};
ghost use Rattle.cubes.specs.Cubes.{IsPatternOf};
ghost use Rattle.word_sim.specs.Hits.{LastDetected};
ghost use Rattle.fewer_patterns.specs.Fewer.{IsNoWorse};
ghost use Rattle.fewer_patterns.specs.declared.aims.Aim.{Aim as AimOf};
ghost use Rattle.fewer_patterns.specs.inner.Aims.{IsAim, IsEnough, IsEnoughFor};
ghost use Rattle.fewer_patterns.specs.inner.Enough.{AllTold, AreEnough};

use crate::aims::Aim;
use crate::arranging::order_of;
use crate::filling::filled;
use crate::fronts::{
    Front, LastTold, Made, ToldPatterns, is_told, needed, parted, tail_of, with_tail,
};
use crate::merging::merged;
use crate::relaxing::{Part, parts_of, relaxed, sharing};
use crate::rows::Rows;
use cubes::Pattern;
use flat_netlist::{Whole, number_of};
use netlist::{Core, Fault, Holds, NoMemory, Point};
use rand_core::Rng;
use rand_pcg::Lcg64Xsh32;
use std::alloc::{AllocError, Global};
use std::thread::Threads;
use stil_patterns::are_patterns;
use worker::last_tells_beside;

/// The stream of the words by which rounds fill, apart from those of workers.
const STREAM: u64 = 1 << 32;

/// How many rounds, by how many workers, and the seed of the bits that are filled.
#[derive(Clone, Copy)]
pub struct Rounds {
    pub count: u32,
    pub workers: u32,
    pub seed: u64,
}

/// Over nine tenths of the bits are set: little could be merged.
fn is_dense(rows: &Rows, places: u32) -> bool {
    let mut bits: u64 = 0;
    for row in 0..rows.count() {
        bits = bits.wrapping_add(rows.size(row) as u64);
    }
    let all = (rows.count() as u64).wrapping_mul(places as u64);
    bits.wrapping_mul(10) > all.wrapping_mul(9)
}

/// Whether each fault was told.
fn are_told(last: &[Option<(u32, Point)>]) -> bool
    ensures { result ≡ true → AllTold last.now }
{
    for k in 0..last.len() {
        if !is_told(&last[k]) {
            return false;
        }
    }
    true
}

/// Where patterns last detect each fault, and to how many of them one is left.
#[derive(Drop)]
struct Told {
    last: LastTold,
    needed: u32,
}

/// What a simulation tells of patterns: that there are no more of them than there may be and that they detect each fault.
fn told_by<R: Threads + Sync>(
    rt: &R,
    aim: &Aim<'_>,
    tried: &[Pattern],
) -> Result<Option<Told>, NoMemory>
    requires { IsAim aim.now }
    ensures { IfOk result (λ found. IfSome found (λ told. AreEnough aim.now.core.now aim.now.holds.now aim.now.faults.now aim.now.most tried.now told.last.items)) }
{
    let alloc = aim.alloc;
    let core = aim.core;
    let holds = aim.holds;
    if tried.len() > aim.most || !are_patterns(core.netlist(), holds, tried) {
        return Ok(None);
    }
    let last = last_tells_beside(rt, alloc, core, aim.faults, tried, aim.rounds.workers)?;
    if !are_told(&last) {
        return Ok(None);
    }
    let needed = needed(alloc, number_of(tried.len()), &last)?;
    Ok(Some(Told { last, needed }))
}

/// The patterns, where that is told of them.
fn verified<R: Threads + Sync>(
    rt: &R,
    aim: &Aim<'_>,
    tried: Vec<Pattern>,
) -> Result<Option<Made>, NoMemory>
    requires { IsAim aim.now }
    ensures { IfOk result (λ found. IfSome found (IsEnough aim.now)) }
{
    let found = told_by(rt, aim, &tried)?;
    match found {
        Some(told) => Ok(Some(Made {
            patterns: tried,
            last: told.last,
            needed: told.needed,
        })),
        None => Ok(None),
    }
}

/// The best patterns so far, other ones of which as many are needed, from which the next round goes on, and whether there is no use in one.
#[derive(Drop)]
struct Course {
    best: Made,
    other: Option<Made>,
    is_over: bool,
}

impl Course {
    /// Those from which the next round goes on.
    fn from(&self) -> &Made {
        match &self.other {
            Some(other) => other,
            None => &self.best,
        }
    }
}

/// What a round found, if anything, and whether there is no use in one more.
#[derive(Drop)]
struct Found {
    made: Option<Made>,
    is_over: bool,
}

/// After a round that found these: they are the best where fewer of them are needed.
fn after(course: Course, found: Found) -> Course
    ensures { (aim : AimOf) → IsEnough aim course.best → IfSome found.made (IsEnough aim) → IsEnough aim result.best }
{
    let Course { best, other, .. } = course;
    drop(other);
    let is_over = found.is_over;
    match found.made {
        Some(made) if made.needed < best.needed => Course {
            best: made,
            other: None,
            is_over,
        },
        Some(made) if made.needed == best.needed => Course {
            best,
            other: Some(made),
            is_over,
        },
        _ => Course {
            best,
            other: None,
            is_over,
        },
    }
}

/// Rows merged, and filled in an order of the round.
fn refilled<N: Rng>(
    aim: &Aim<'_>,
    rows: &Rows,
    round: u32,
    rng: &mut N,
) -> Result<Vec<Pattern>, AllocError> {
    let rows = merged(aim.alloc, rows, aim.places())?;
    let order = order_of(aim.alloc, rows.count(), round, rng)?;
    filled(aim.alloc, aim.core, &rows, &order, rng)
}

/// What the patterns become that are relaxed, merged and filled, where they are verified. Where the first left them dense there is no use in one more.
fn found_from<N: Rng, R: Threads + Sync>(
    rt: &R,
    aim: &Aim<'_>,
    whole: &Whole,
    parts: &mut Vec<Part>,
    from: &Made,
    round: u32,
    rng: &mut N,
) -> Result<Found, NoMemory>
    requires { IsAim aim.now }
    ensures { IfOk result (λ found. IfSome found.made (IsEnough aim.now)) }
{
    let rows = relaxed(rt, aim, whole, parts, from)?;
    let is_over = is_dense(&rows, aim.places());
    let tried = refilled(aim, &rows, round, rng)?;
    let made = verified(rt, aim, tried)?;
    Ok(Found { made, is_over })
}

/// One round more.
fn next_round<N: Rng, R: Threads + Sync>(
    rt: &R,
    aim: &Aim<'_>,
    whole: &Whole,
    parts: &mut Vec<Part>,
    course: Course,
    round: u32,
    rng: &mut N,
) -> Result<Course, NoMemory>
    requires aim { IsAim aim.now }
    requires enough { IsEnough aim.now course.best }
    ensures { IfOk result (λ next. IsEnough aim.now next.best) }
{
    match found_from(rt, aim, whole, parts, course.from(), round, rng) {
        Ok(found) => Ok(after(course, found)),
        Err(refusal) => {
            drop(course);
            Err(refusal)
        }
    }
}

/// The best patterns.
fn best_of(course: Course) -> Made
    ensures { result ≡ course.best }
{
    course.best
}

/// The best patterns after all rounds, in this room.
fn improved_in<R: Threads + Sync>(
    rt: &R,
    aim: &Aim<'_>,
    whole: &Whole,
    parts: &mut Vec<Part>,
    first: Made,
) -> Result<Made, NoMemory>
    requires aim { IsAim aim.now }
    requires enough { IsEnough aim.now first }
    ensures { IfOk result (IsEnough aim.now) }
{
    let Rounds { count, seed, .. } = aim.rounds;
    let mut rng = Lcg64Xsh32::new(seed, STREAM);
    let mut course = Course {
        best: first,
        other: None,
        is_over: false,
    };
    for round in 0..count {
        if course.is_over {
            break;
        }
        course = next_round(rt, aim, whole, parts, course, round, &mut rng)?;
    }
    Ok(best_of(course))
}

/// The same over a netlist in flat arrays.
fn improved_over<R: Threads + Sync>(
    rt: &R,
    aim: &Aim<'_>,
    whole: &Whole,
    first: Made,
) -> Result<Made, NoMemory>
    requires aim { IsAim aim.now }
    requires enough { IsEnough aim.now first }
    ensures { IfOk result (IsEnough aim.now) }
{
    let workers = sharing(aim.rounds.workers, aim.most);
    let mut parts = parts_of(aim.alloc, whole, aim.places(), workers)?;
    let best = improved_in(rt, aim, whole, &mut parts, first);
    drop(parts);
    best
}

/// The best patterns after all rounds.
fn improved<R: Threads + Sync>(rt: &R, aim: &Aim<'_>, first: Made) -> Result<Made, NoMemory>
    requires aim { IsAim aim.now }
    requires enough { IsEnough aim.now first }
    ensures { IfOk result (IsEnough aim.now) }
{
    let mut whole = Whole::new(aim.alloc);
    whole.begin(aim.alloc, aim.core)?;
    let best = improved_over(rt, aim, &whole, first);
    drop(whole);
    best
}

/// The same of so many patterns in front, to which these faults are left.
fn improved_front<R: Threads + Sync>(
    rt: &R,
    aim: &Aim<'_>,
    left: &[Fault],
    start: usize,
    made: Made,
) -> Result<Made, NoMemory>
    requires aim { IsAim aim.now }
    requires start { start ≤ aim.now.most }
    requires lines { All (λ (f : FaultOf). IsLineOf aim.now.core.now f.line) left.now }
    requires enough { IsEnoughFor aim.now left.now start made }
    ensures { IfOk result (IsEnoughFor aim.now left.now start) }
{
    let narrow = Aim {
        alloc: aim.alloc,
        core: aim.core,
        holds: aim.holds,
        faults: left,
        most: start,
        rounds: aim.rounds,
    };
    improved(rt, &narrow, made)
}

/// Patterns of which as much is told, and no more of them: the best in front after all rounds, and the tail.
fn fewer_told<R: Threads + Sync>(
    rt: &R,
    aim: &Aim<'_>,
    patterns: Vec<Pattern>,
    last: &[Option<(u32, Point)>],
) -> Result<ToldPatterns, NoMemory>
    requires aim { IsAim aim.now }
    requires most { length patterns.items ≤ aim.now.most }
    requires obey { All (IsPatternOf aim.now.core.now aim.now.holds.now) patterns.items }
    requires told { AllZip (LastDetected aim.now.core.now patterns.items) aim.now.faults.now last.now }
    ensures { IfOk result (λ all. IsNoWorse aim.now.core.now aim.now.holds.now aim.now.faults.now patterns.items all.patterns.items
        × AllZip (LastDetected aim.now.core.now all.patterns.items) aim.now.faults.now all.last.items) }
{
    let start = tail_of(aim.alloc, patterns.len(), last)?;
    let Front { left, made, tail } = parted(aim.alloc, aim.faults, patterns, last, start)?;
    let best = improved_front(rt, aim, &left, start, made);
    drop(left);
    with_tail(rt, aim, start, last, best?, tail)
}

/// Patterns that detect each of these faults that the given ones detect, and that are no more: after so many rounds. Those to which most faults are
/// left stay as they are, behind the others: they need most of their bits, and to trace what is left to them costs most. And where they last detect
/// each fault, which the rounds have found by then.
pub fn fewer<R: Threads + Sync>(
    rt: &R,
    alloc: Global,
    core: &Core,
    holds: &Holds,
    faults: &[Fault],
    patterns: Vec<Pattern>,
    rounds: Rounds,
) -> Result<ToldPatterns, NoMemory>
    requires held { AreHoldsOf core.now holds.now }
    requires lines { All (λ (f : FaultOf). IsLineOf core.now f.line) faults.now }
    requires obey { All (IsPatternOf core.now holds.now) patterns.items }
    requires few { length patterns.items + 64 ≤ 2 ^ 32 }
    requires workers { 0 < rounds.workers }
    ensures fewer { IfOk result (λ all. IsNoWorse core.now holds.now faults.now patterns.items all.patterns.items) }
    ensures told { IfOk result (λ all. AllZip (LastDetected core.now all.patterns.items) faults.now all.last.items) }
{
    let last = last_tells_beside(rt, alloc, core, faults, &patterns, rounds.workers)?;
    if rounds.count == 0 {
        return Ok(ToldPatterns { patterns, last });
    }
    let aim = Aim {
        alloc,
        core,
        holds,
        faults,
        most: patterns.len(),
        rounds,
    };
    let told = fewer_told(rt, &aim, patterns, &last)?;
    Ok(told)
}
