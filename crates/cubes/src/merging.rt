//! Cubes merged into fewer.
ghost use Rattle.std.specs.Prelude.{◌≡◌, ◌<◌, ◌≤◌, ℕ, length, IfOk, OnOk, MatchOption};
ghost use Rattle.std.specs.List.{All, AllPairs, Contains};
ghost use Rattle.statement.specs.Netlists.{Netlist};
ghost use Rattle.statement.specs.Patterns.{Holds};
ghost use Rattle.cubes.specs.Cubes.{Cube as Values, Contradicts, HaveSameWidths, HasBitsOf, IsCubeOf};
ghost use Rattle.cubes.specs.Merging.{cube_at, AreMerged};
ghost use Rattle.cubes.specs.inner.Joining.{IsAdded};

use crate::patterns::Cube;
use netlist::NoMemory;
use std::alloc::{AllocError, Global};

/// The first result that the cube doesn't contradict.
fn first_clear(results: &[Cube], cube: &Cube) -> Option<usize>
    requires { All (λ (r : Values). HaveSameWidths r cube.now) results.now }
    ensures { MatchOption result
        ((p : ℕ) → p < length results.now → Contradicts (cube_at results.now p) cube.now)
        (λ place. (place < length results.now)
        × (¬ Contradicts (cube_at results.now place) cube.now)
        × ((p : ℕ) → p < place → Contradicts (cube_at results.now p) cube.now)) }
{
    for (place, result) in results.iter().enumerate() {
        if !result.contradicts(cube) {
            return Some(place);
        }
    }
    None
}

/// Joins the cube to the first result that it doesn't contradict, or begins a new one.
fn add(alloc: Global, results: &mut Vec<Cube>, cube: &Cube) -> Result<(), AllocError>
    requires { All (λ (r : Values). HaveSameWidths r cube.now) results.old.items }
    ensures { OnOk result (IsAdded cube.now results.old.items results.new.items) }
{
    match first_clear(results, cube) {
        Some(place) => results[place].join(cube),
        None => results.push(cube.copy(alloc)?)?,
    }
    Ok(())
}

/// Fewer cubes with the bits of these: each in order joins the first result that it doesn't contradict, else it begins a new one.
pub fn merge(alloc: Global, cubes: &[Cube]) -> Result<Vec<Cube>, NoMemory>
    requires { AllPairs HaveSameWidths cubes.now }
    ensures merged { IfOk result (λ results. AreMerged cubes.now results.items (length cubes.now)) }
    ensures few { IfOk result (λ results. length results.items ≤ length cubes.now) }
    ensures fit { IfOk result (λ results. (n : Netlist) (holds : Holds) → All (IsCubeOf n holds) cubes.now → All (IsCubeOf n holds) results.items) }

    // Hence each cube's bits are in one result, and any two results contradict each other.
    ensures kept { IfOk result (λ results. (c : Values) → Contains cubes.now c → (r : Values) × Contains results.items r × HasBitsOf r c) }
    ensures apart { IfOk result (λ results. AllPairs Contradicts results.items) }
{
    let mut results = Vec::new(alloc);
    for cube in cubes {
        add(alloc, &mut results, cube)?;
    }
    Ok(results)
}
