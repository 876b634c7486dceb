//! Patterns near to one that detects a fault: equal to it but for a bit or two.
//!
//! What a fault's test doesn't need may be turned over, so that many of these detect it too, where one search more comes to the test that is known.
//! (Clauses that forbid what is known would leave none out, and take a search for each pattern.)
ghost use Rattle.std.specs.Prelude.{◌≡◌, ◌+◌, ◌≤◌, ◌^◌, IfOk, length};
ghost use Rattle.std.specs.List.{All};
ghost use Rattle.cubes.specs.Cubes.{IsPatternOf};
ghost use Rattle.netlist.specs.Lines.{IsLineOf};
ghost use Rattle.netlist.specs.Holds.{AreHoldsOf};
ghost use Rattle.run_files.specs.inner.Plans.{AreFaultsOf, MayRun};

use crate::asked::RunPlan;
use crate::last::{last_few, last_told};
use crate::repeating::unsettled;
use cubes::Pattern;
use evidence::Engine;
use flat_netlist::number_of;
use netlist::{Core, Fault, Holds, NoMemory, Point};
use outside::Gate;
use rand_core::Rng;
use rand_pcg::Lcg64Xsh32;
use std::alloc::{AllocError, Global};
use std::thread::Threads;
use stil_patterns::are_patterns;
use worker::Errand;

/// So many are tried for a fault: they are simulated at once.
const TRIED: u32 = 64;

/// The stream of the words by which places are drawn, apart from those of workers, one by the number of each and one more, and of the rounds that make
/// patterns fewer.
const STREAM: u64 = (1 << 32) + 1;

/// A netlist with its held inputs, the places of its patterns that may be turned over, and how many patterns are kept for a fault.
#[derive(Clone, Copy)]
struct Turning<'a> {
    alloc: Global,
    core: &'a Core,
    holds: &'a Holds,
    free: &'a [u32],
    most: u32,
}

/// Two places of a pattern, or one twice. The inputs' stand before the cells'.
#[derive(Clone, Copy)]
struct Places {
    one: u32,
    other: u32,
}

/// Whether an input stands at this place that is held.
fn is_held(core: &Core, holds: &Holds, place: u32) -> bool
    requires { AreHoldsOf core.now holds.now }
{
    (place as usize) < core.netlist().inputs().len() && holds.held(place).is_some()
}

/// The places of inputs that aren't held, and of cells.
fn free_places(alloc: Global, core: &Core, holds: &Holds) -> Result<Vec<u32>, AllocError>
    requires { AreHoldsOf core.now holds.now }
{
    let inputs = number_of(core.netlist().inputs().len());
    let cells = number_of(core.netlist().cells().len());
    let mut places = Vec::new(alloc);
    for place in 0..inputs.wrapping_add(cells) {
        if !is_held(core, holds, place) {
            places.push(place)?;
        }
    }
    Ok(places)
}

/// The bits from a place of the pattern on, turned over at these places.
fn turned(
    alloc: Global,
    bits: &[bool],
    from: u32,
    places: Places,
) -> Result<Vec<bool>, AllocError> {
    let mut new = Vec::with_capacity(alloc, bits.len())?;
    for (k, bit) in bits.iter().enumerate() {
        let place = from.wrapping_add(number_of(k));
        new.push(*bit != (place == places.one || place == places.other))?;
    }
    Ok(new)
}

/// The pattern, turned over at these places.
fn near_pattern(alloc: Global, pattern: &Pattern, places: Places) -> Result<Pattern, AllocError> {
    let inputs = pattern.inputs();
    let of_inputs = turned(alloc, inputs, 0, places)?;
    let of_cells = turned(alloc, pattern.cells(), number_of(inputs.len()), places)?;
    Ok(Pattern::new(of_inputs, of_cells))
}

/// The places of the one tried after so many others: each place by itself, and then each with another one.
fn places_of<N: Rng>(free: &[u32], first: u32, tried: u32, rng: &mut N) -> Option<Places> {
    let count = number_of(free.len());
    if count == 0 {
        return None;
    }
    let one = *free.get((first.wrapping_add(tried) % count) as usize)?;
    let other = if tried < count {
        one
    } else {
        *free.get((rng.next_u32() % count) as usize)?
    };
    Some(Places { one, other })
}

/// The patterns that are tried for a fault.
fn near_patterns<N: Rng>(
    alloc: Global,
    pattern: &Pattern,
    free: &[u32],
    rng: &mut N,
) -> Result<Vec<Pattern>, AllocError> {
    let first = rng.next_u32() / 2;
    let mut near = Vec::new(alloc);
    for tried in 0..TRIED {
        if let Some(places) = places_of(free, first, tried, rng) {
            near.push(near_pattern(alloc, pattern, places)?)?;
        }
    }
    Ok(near)
}

/// Those near to a pattern that are the last so many to detect the fault.
fn near_tests<N: Rng>(
    turning: &Turning<'_>,
    fault: &Fault,
    pattern: &Pattern,
    rng: &mut N,
) -> Result<Vec<Pattern>, NoMemory>
    requires held { AreHoldsOf turning.now.core.now turning.now.holds.now }
    requires line { IsLineOf turning.now.core.now fault.now.line }
    ensures obey { IfOk result (λ v. All (IsPatternOf turning.now.core.now turning.now.holds.now) v.items) }
{
    let alloc = turning.alloc;
    let core = turning.core;
    let near = near_patterns(alloc, pattern, turning.free, rng)?;
    if !are_patterns(core.netlist(), turning.holds, &near) {
        return Ok(Vec::new(alloc));
    }
    let tests = last_few(alloc, core, &[*fault], near, turning.most)?;
    Ok(tests)
}

/// Those near to the last pattern that detects the fault, if one does.
fn near_last<N: Rng>(
    turning: &Turning<'_>,
    fault: &Fault,
    last: Option<&Pattern>,
    rng: &mut N,
) -> Result<Vec<Pattern>, NoMemory>
    requires held { AreHoldsOf turning.now.core.now turning.now.holds.now }
    requires line { IsLineOf turning.now.core.now fault.now.line }
    ensures obey { IfOk result (λ v. All (IsPatternOf turning.now.core.now turning.now.holds.now) v.items) }
{
    match last {
        Some(pattern) => near_tests(turning, fault, pattern, rng),
        None => Ok(Vec::new(turning.alloc)),
    }
}

/// The pattern that is told, if one is.
fn told_pattern(patterns: &[Pattern], told: Option<(u32, Point)>) -> Option<&Pattern> {
    told.and_then(|(place, _)| patterns.get(place as usize))
}

/// Those near to the last pattern that detects each of these faults.
fn all_near_tests<N: Rng>(
    turning: &Turning<'_>,
    faults: &[Fault],
    last: &[Option<(u32, Point)>],
    patterns: &[Pattern],
    rng: &mut N,
) -> Result<Vec<Pattern>, NoMemory>
    requires held { AreHoldsOf turning.now.core.now turning.now.holds.now }
    requires faults { AreFaultsOf turning.now.core.now faults.now }
    requires size { length last.now ≡ length faults.now }
    ensures obey { IfOk result (λ v. All (IsPatternOf turning.now.core.now turning.now.holds.now) v.items) }
{
    let mut all = Vec::new(turning.alloc);
    for k in 0..faults.len() {
        let mut near = near_last(turning, &faults[k], told_pattern(patterns, last[k]), rng)?;
        all.append(&mut near)?;
    }
    Ok(all)
}

/// What is near to patterns that detect a fault, of the faults that some of these detect, but too few.
#[tactic(auto, using(crate::proofs::FoundLemmas::faults_lent, crate::proofs::NearLemmas::told_size))]
pub(crate) fn found_near<E: Engine, G: Gate, R: Threads + Sync>(
    errand: &Errand<'_, E, G, R>,
    plan: RunPlan,
    faults: &[Fault],
    patterns: &[Pattern],
) -> Result<Vec<Pattern>, NoMemory>
    requires ready { MayRun errand.now.core.now errand.now.holds.now plan }
    requires faults { AreFaultsOf errand.now.core.now faults.now }
    requires obey { All (IsPatternOf errand.now.core.now errand.now.holds.now) patterns.now }
    requires small { length patterns.now + 64 ≤ 2 ^ 32 }
    ensures obey { IfOk result (λ v. All (IsPatternOf errand.now.core.now errand.now.holds.now) v.items) }
{
    let alloc = errand.alloc;
    let core = errand.core;
    let left = unsettled(alloc, core, faults, patterns, plan.times)?;
    let last = last_told(errand, plan, &left, patterns)?;
    let free = free_places(alloc, core, errand.holds)?;
    let mut rng = Lcg64Xsh32::new(plan.seed, STREAM);
    let turning = Turning {
        alloc,
        core,
        holds: errand.holds,
        free: &free,
        most: plan.times,
    };
    all_near_tests(&turning, &left, &last, patterns, &mut rng)
}
