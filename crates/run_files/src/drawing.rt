//! Patterns that are drawn before any fault is searched: a few of them detect most faults, in a fraction of the time of their searches.
//!
//! Of a batch those are taken that are the last to detect several of the faults that are left. What only others detect is searched after all: cubes
//! of tests are merged, and a pattern of many cubes detects more of it than one that was drawn.
ghost use Rattle.std.specs.Prelude.{◌≡◌, ◌+◌, ◌^◌, IfOk};
ghost use Rattle.run_files.specs.inner.Batches.{AreNumbered, AreOfCube, AreRest, AreSome, AreWithNumbers, IsBatch, IsNext, IsSoFar, MayDraw, MaySimulate};
ghost use Rattle.run_files.specs.inner.Plans.{AreFaultsOf, AreFew, MayRun};

use crate::asked::RunPlan;
use crate::searching::{Left, with_behind};
use cubes::{Cube, Pattern, fill, open_cube};
use evidence::Engine;
use flat_netlist::number_of;
use list_core::{Goal, kept};
use netlist::{Fault, NoMemory};
use outside::{Gate, Stage};
use rand_core::Rng;
use rand_pcg::Lcg64Xsh32;
use std::alloc::{AllocError, Global};
use std::thread::Threads;
use word_sim::Hit;
use worker::{Errand, Simulators};

/// So many are drawn at once: they are simulated in one word.
const BATCH: usize = 64;

/// The stream of the seed that they are drawn from, apart from those of workers and of rounds.
const STREAM: u64 = 1 << 33;

/// A pattern is taken that is the last of its batch to detect so many faults.
const WORTH: u32 = 4;

/// A batch that detects less than one in so many of the faults that are left is the last.
const LEAST: usize = 64;

/// So many batches at most. As each but the last leaves 63 in 64 faults at most, no run comes to so many.
const MOST: usize = 2048;

/// A batch of patterns of the cube, each filled from the words that those before it leave.
fn drawn_batch<N: Rng>(alloc: Global, cube: &Cube, rng: &mut N) -> Result<Vec<Pattern>, NoMemory>
    ensures { IfOk result (λ v. AreOfCube cube.now v.items) }
{
    let mut patterns = Vec::with_capacity(alloc, BATCH)?;
    for _drawn in 0..BATCH {
        let pattern = fill(alloc, cube, rng)?;
        patterns.push(pattern)?;
    }
    Ok(patterns)
}

/// How many hits name each pattern of a batch.
fn counts_of(alloc: Global, hits: &[Hit]) -> Result<Vec<u32>, AllocError> {
    let mut counts = vec![in alloc; 0u32; BATCH]?;
    for hit in hits {
        if let Some(count) = counts.get_mut(hit.pattern as usize) {
            *count = count.wrapping_add(1);
        }
    }
    Ok(counts)
}

/// Marks the patterns that enough hits name.
fn worth_marks(alloc: Global, hits: &[Hit]) -> Result<Vec<bool>, AllocError> {
    let counts = counts_of(alloc, hits)?;
    counts.iter().map(|count| *count >= WORTH).collect(alloc)
}

/// Whether the next hit is of this fault and names a marked pattern, and how many hits there are up to the fault's.
fn is_taken(hits: &[Hit], next: usize, number: u32, marks: &[bool]) -> (bool, usize) {
    match hits.get(next) {
        Some(hit) if hit.class == number => {
            let mark = marks.get(hit.pattern as usize);
            (matches!(mark, Some(true)), next.wrapping_add(1))
        }
        _ => (false, next),
    }
}

/// The faults that no marked pattern detects. Hits come in the order of the faults.
fn left_after(
    alloc: Global,
    left: &[(u32, Fault)],
    hits: &[Hit],
    marks: &[bool],
) -> Result<Vec<(u32, Fault)>, AllocError>
    ensures { IfOk result (λ v. AreRest left.now v.items) }
{
    let mut rest = Vec::new(alloc);
    let mut next = 0;
    for one in left {
        let (taken, after) = is_taken(hits, next, one.0, marks);
        next = after;
        if !taken {
            rest.push(*one)?;
        }
    }
    Ok(rest)
}

/// The faults with their numbers.
fn numbered(alloc: Global, faults: &[Fault]) -> Result<Vec<(u32, Fault)>, AllocError>
    ensures { IfOk result (λ v. AreWithNumbers faults.now v.items) }
{
    let mut all = Vec::with_capacity(alloc, faults.len())?;
    for k in 0..faults.len() {
        all.push((number_of(k), faults[k]))?;
    }
    Ok(all)
}

/// The marked patterns.
fn marked_patterns(
    alloc: Global,
    drawn: Vec<Pattern>,
    marks: &[bool],
) -> Result<Vec<Pattern>, AllocError>
    ensures { IfOk result (λ v. AreSome drawn.items v.items) }
{
    kept(alloc, drawn, marks)
}

/// Of drawn patterns those that enough hits name, and the faults that they leave.
fn taken_of(
    alloc: Global,
    drawn: Vec<Pattern>,
    left: &[(u32, Fault)],
    hits: &[Hit],
) -> Result<(Vec<Pattern>, Vec<(u32, Fault)>), AllocError>
    ensures taken { IfOk result (λ r. AreSome drawn.items r.0.items) }
    ensures rest { IfOk result (λ r. AreRest left.now r.1.items) }
{
    let marks = worth_marks(alloc, hits)?;
    let rest = left_after(alloc, left, hits, &marks)?;
    let taken = marked_patterns(alloc, drawn, &marks)?;
    Ok((taken, rest))
}

/// Which of these patterns detect which of these faults.
fn hits_of<E: Engine, G: Gate, R: Threads + Sync>(
    errand: &Errand<'_, E, G, R>,
    simulators: &mut Simulators<'_>,
    drawn: &[Pattern],
    left: &[(u32, Fault)],
) -> Result<Vec<Hit>, NoMemory>
    requires batch { MaySimulate simulators.old drawn.now left.now }
    ensures simulators { simulators.new ≡ simulators.old }
{
    simulators.hits(errand.rt, errand.alloc, drawn, left)
}

/// Of a batch the patterns that are taken, and the faults that they leave.
fn draw_batch<N: Rng, E: Engine, G: Gate, R: Threads + Sync>(
    errand: &Errand<'_, E, G, R>,
    simulators: &mut Simulators<'_>,
    cube: &Cube,
    left: &[(u32, Fault)],
    rng: &mut N,
) -> Result<(Vec<Pattern>, Vec<(u32, Fault)>), NoMemory>
    requires drawing { MayDraw errand.now.core.now errand.now.holds.now cube.now simulators.old }
    requires lines { AreNumbered errand.now.core.now left.now }
    ensures batch { IfOk result (λ r. IsBatch errand.now.core.now errand.now.holds.now r.0.items r.1.items) }
    ensures simulators { simulators.new ≡ simulators.old }
{
    let drawn = drawn_batch(errand.alloc, cube, rng)?;
    let hits = hits_of(errand, simulators, &drawn, left)?;
    Ok(taken_of(errand.alloc, drawn, left, &hits)?)
}

/// What these faults weigh together.
fn weight_of(weights: &[u32], faults: &[(u32, Fault)]) -> u64 {
    let mut weight = 0u64;
    for (number, _) in faults {
        if let Some(one) = weights.get(*number as usize) {
            weight = weight.wrapping_add(*one as u64);
        }
    }
    weight
}

/// Whether there is a goal, and enough is detected where these of all faults are left.
fn is_enough(goal: Option<&Goal>, all: u64, left: &[(u32, Fault)]) -> bool {
    match goal {
        Some(goal) => all.wrapping_sub(weight_of(&goal.weights, left)) >= goal.enough,
        None => false,
    }
}

/// What all faults weigh, where there is a goal.
fn whole_weight(goal: Option<&Goal>, left: &[(u32, Fault)]) -> u64 {
    match goal {
        Some(goal) => weight_of(&goal.weights, left),
        None => 0,
    }
}

/// Whether a batch is the last that leaves so many of the faults before it.
fn is_last(before: usize, left: usize) -> bool {
    left == 0 || before.saturating_sub(left) < before.div_ceil(LEAST)
}

/// What has been drawn and taken so far, the faults that it leaves, and whether the last batch was the last.
#[derive(Drop)]
struct Drawn {
    patterns: Vec<Pattern>,
    left: Vec<(u32, Fault)>,
    is_over: bool,
}

/// With one batch more.
#[tactic(auto, using(crate::proofs::DrawLemmas::numbered_lent))]
fn with_batch<N: Rng, E: Engine, G: Gate, R: Threads + Sync>(
    errand: &Errand<'_, E, G, R>,
    simulators: &mut Simulators<'_>,
    cube: &Cube,
    drawn: Drawn,
    rng: &mut N,
) -> Result<Drawn, NoMemory>
    requires drawing { MayDraw errand.now.core.now errand.now.holds.now cube.now simulators.old }
    requires so_far { IsSoFar errand.now.core.now errand.now.holds.now drawn.patterns.items drawn.left.items }
    ensures next { IfOk result (λ d. IsNext errand.now.core.now errand.now.holds.now drawn.patterns.items d.patterns.items d.left.items) }
    ensures simulators { simulators.new ≡ simulators.old }
{
    let Drawn { patterns, left, .. } = drawn;
    let (more, rest) = draw_batch(errand, simulators, cube, &left, rng)?;
    let patterns = with_behind(patterns, more)?;
    let is_over = is_last(left.len(), rest.len());
    errand.stage.at(
        0,
        Stage::Published {
            undetected: rest.len() as u64,
        },
    );
    Ok(Drawn {
        patterns,
        left: rest,
        is_over,
    })
}

/// Patterns of the cube that detect many of these faults, batch after batch, until one detects few, or enough are detected.
fn draw_batches<N: Rng, E: Engine, G: Gate, R: Threads + Sync>(
    errand: &Errand<'_, E, G, R>,
    simulators: &mut Simulators<'_>,
    cube: &Cube,
    faults: Vec<(u32, Fault)>,
    goal: Option<&Goal>,
    rng: &mut N,
) -> Result<Vec<Pattern>, NoMemory>
    requires drawing { MayDraw errand.now.core.now errand.now.holds.now cube.now simulators.old }
    requires lines { AreNumbered errand.now.core.now faults.items }
    ensures { IfOk result (λ v. AreFew errand.now.core.now errand.now.holds.now (2 ^ 17 + 1) v.items) }
{
    let all = whole_weight(goal, &faults);
    let is_over = faults.is_empty();
    let mut drawn = Drawn {
        patterns: Vec::new(errand.alloc),
        left: faults,
        is_over,
    };
    for _batch in 0..MOST {
        if drawn.is_over || is_enough(goal, all, &drawn.left) {
            break;
        }
        drawn = with_batch(errand, simulators, cube, drawn, rng)?;
    }
    Ok(drawn.patterns)
}

/// Patterns that obey the held inputs and detect many of the faults that are left.
fn drawn_by<N: Rng, E: Engine, G: Gate, R: Threads + Sync>(
    errand: &Errand<'_, E, G, R>,
    plan: RunPlan,
    left: &Left,
    rng: &mut N,
) -> Result<Vec<Pattern>, NoMemory>
    requires ready { MayRun errand.now.core.now errand.now.holds.now plan }
    requires faults { AreFaultsOf errand.now.core.now left.now.faults.items }
    ensures { IfOk result (λ v. AreFew errand.now.core.now errand.now.holds.now (2 ^ 17 + 1) v.items) }
{
    let cube = open_cube(errand.alloc, errand.core, errand.holds)?;
    let faults = numbered(errand.alloc, &left.faults)?;
    let mut simulators = Simulators::new(errand.alloc, errand.core, plan.workers)?;
    draw_batches(
        errand,
        &mut simulators,
        &cube,
        faults,
        left.goal.as_ref(),
        rng,
    )
}

/// The same, from the plan's seed.
pub(crate) fn drawn_patterns<E: Engine, G: Gate, R: Threads + Sync>(
    errand: &Errand<'_, E, G, R>,
    plan: RunPlan,
    left: &Left,
) -> Result<Vec<Pattern>, NoMemory>
    requires ready { MayRun errand.now.core.now errand.now.holds.now plan }
    requires faults { AreFaultsOf errand.now.core.now left.now.faults.items }
    ensures { IfOk result (λ v. AreFew errand.now.core.now errand.now.holds.now (2 ^ 17 + 1) v.items) }
{
    let mut rng = Lcg64Xsh32::new(plan.seed, STREAM);
    drawn_by(errand, plan, left, &mut rng)
}
