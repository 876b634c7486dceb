//! Faults that drawn patterns detect aren't searched: most of those that can be detected are so by 64 patterns, in a fraction of the time of their searches.
ghost use Rattle.std.specs.Prelude.{◌≡◌, ◌≤◌, ◌+◌, length, map, IfOk, not};
ghost use Rattle.std.specs.List.{All};
ghost use Rattle.std.specs.Option.{is_some};
ghost use Rattle.netlist.specs.Designs.{IsDesign};
ghost use Rattle.netlist.specs.Holds.{AreHoldsOf};
ghost use Rattle.cubes.specs.Cubes.{IsPatternOf};
ghost use Rattle.word_sim.specs.Words.{HasWidthsOf};
ghost use Rattle.statement.specs.Faults.{universe_of};
ghost use Rattle.transition_tests.specs.Batches.{AreLeftBy, drawn, batch_of};

use cubes::{Cube, Pattern, fill, open_cube};
use fault_universe::FaultSet;
use netlist::{Core, Holds, NoMemory, Point};
use rand_core::Rng;
use rand_pcg::Lcg64Xsh32;
use std::alloc::{AllocError, Global};
use transition_sim::last_tells2;

/// How many patterns are drawn: as many as one word of a simulation has.
const BATCH: usize = 64;

/// The stream of the drawn patterns. Cubes are filled from stream 0.
const BATCH_STREAM: u64 = 1;

/// So many patterns of one cube, each filled from the words that those before it leave.
fn drawn<N: Rng>(
    alloc: Global,
    cube: &Cube,
    count: usize,
    rng: &mut N,
) -> Result<Vec<Pattern>, NoMemory>
    ensures { IfOk result (λ v. v.items ≡ drawn count cube.now (N.stream rng.old)) }
{
    let mut patterns = Vec::new(alloc);
    for _done in 0..count {
        let pattern = fill(alloc, cube, rng)?;
        patterns.push(pattern)?;
    }
    Ok(patterns)
}

/// The patterns that are drawn from a seed before any fault is searched. Each held input has its bit in all of them.
pub fn batch_of(
    alloc: Global,
    core: &Core,
    seed: u64,
    holds: &Holds,
) -> Result<Vec<Pattern>, NoMemory>
    requires { AreHoldsOf core.now holds.now }
    ensures drawn { IfOk result (λ v. v.items ≡ batch_of core.now holds.now seed) }
    ensures obey { IfOk result (λ v. All (IsPatternOf core.now holds.now) v.items) }
    ensures count { IfOk result (λ v. length v.items ≡ 64) }
{
    let open = open_cube(alloc, core, holds)?;
    let mut rng = Lcg64Xsh32::new(seed, BATCH_STREAM);
    drawn(alloc, &open, BATCH, &mut rng)
}

/// Whether each fault is left, by where it is last detected.
fn undetected(alloc: Global, last: &[Option<(u32, Point)>]) -> Result<Vec<bool>, AllocError>
    ensures { IfOk result (λ v. v.items ≡ map (λ l. not (is_some l)) last.now) }
{
    let mut left = Vec::with_capacity(alloc, last.len())?;
    for l in last {
        left.push(l.is_none())?;
    }
    Ok(left)
}

/// Which faults no pattern of the batch detects: those that are left to be searched.
pub fn left_by(
    alloc: Global,
    core: &Core,
    faults: &FaultSet,
    batch: &[Pattern],
) -> Result<Vec<bool>, NoMemory>
    requires design { IsDesign core.now }
    requires faults { faults.now ≡ universe_of core.now }
    requires wide { All (HasWidthsOf core.now) batch.now }
    requires count { length batch.now ≤ length (universe_of core.now) + 64 }
    ensures { IfOk result (λ v. AreLeftBy core.now batch.now (universe_of core.now) v.items) }
{
    core.netlist().sound();
    let last = last_tells2(alloc, core, faults, batch)?;
    let left = undetected(alloc, &last)?;
    Ok(left)
}
