//! Patterns from the cubes of tests: merged in the order of faults, and then filled. All cubes are merged at once, since searches know nothing
//! of each other; each pattern so has the bits of many.
ghost use Rattle.std.specs.Prelude.{◌≡◌, ◌≤◌, ◌+◌, ◌++◌, length, IfOk, OnOk};
ghost use Rattle.std.specs.List.{All, AllPairs, Contains};
ghost use Rattle.statement.specs.Patterns.{Holds};
ghost use Rattle.statement.specs.Netlists.{Netlist};
ghost use Rattle.cubes.specs.Cubes.{Cube as Values, HaveSameWidths, IsCubeOf, IsPatternOf};
ghost use Rattle.transition_tests.specs.Making.{AreBehind, AreFilledFrom, cube_of, cubes_in};
ghost use Rattle.transition_tests.specs.inner.Cubes.{HasAgreeing};

use cubes::{Cube, Pattern, fill_all, merge};
use evidence::Found;
use netlist::NoMemory;
use rand_pcg::Lcg64Xsh32;
use std::alloc::{AllocError, Global};

/// Adds the cube of a test.
fn push_cube(alloc: Global, cubes: &mut Vec<Cube>, answer: &Option<Found>) -> Result<(), AllocError>
    ensures { OnOk result (cubes.new.items ≡ cubes.old.items ++ cube_of answer.now) }
{
    match answer {
        Some(Found::Test(cube, _)) => cubes.push(cube.copy(alloc)?)?,
        Some(Found::Closed(_) | Found::Refuted(_) | Found::Partial(_)) | None => {}
    }
    Ok(())
}

/// The cubes of tests, in the order of faults.
fn cubes_of(alloc: Global, found: &[Option<Found>]) -> Result<Vec<Cube>, AllocError>
    ensures { IfOk result (λ v. v.items ≡ cubes_in found.now) }
{
    let mut cubes = Vec::new(alloc);
    for answer in found {
        push_cube(alloc, &mut cubes, answer)?;
    }
    Ok(cubes)
}

/// What the cubes of tests become: fewer patterns than cubes, where each cube has one with its bits.
fn filled(
    alloc: Global,
    found: &[Option<Found>],
    stream: u64,
    seed: u64,
) -> Result<Vec<Pattern>, NoMemory>
    requires { AllPairs HaveSameWidths (cubes_in found.now) }
    ensures made { IfOk result (λ v. AreFilledFrom (cubes_in found.now) stream seed v.items) }
    ensures fit { IfOk result (λ v. (n : Netlist) (holds : Holds) → All (IsCubeOf n holds) (cubes_in found.now) → All (IsPatternOf n holds) v.items) }
    ensures few { IfOk result (λ v. length v.items ≤ length (cubes_in found.now)) }
    ensures agree { IfOk result (λ v. (c : Values) → Contains (cubes_in found.now) c → HasAgreeing v.items c) }
{
    let cubes = cubes_of(alloc, found)?;
    let merged = merge(alloc, &cubes)?;
    let mut rng = Lcg64Xsh32::new(seed, stream);
    fill_all(alloc, &merged, &mut rng)
}

/// The patterns of the batch, and behind them what the cubes of tests become, where each cube has a pattern with its bits.
pub(crate) fn patterns_of(
    alloc: Global,
    mut batch: Vec<Pattern>,
    found: &[Option<Found>],
    stream: u64,
    seed: u64,
) -> Result<Vec<Pattern>, NoMemory>
    requires { AllPairs HaveSameWidths (cubes_in found.now) }
    ensures made { IfOk result (λ v. AreBehind batch.items (cubes_in found.now) stream seed v.items) }
    ensures fit { IfOk result (λ v. (n : Netlist) (holds : Holds) → All (IsPatternOf n holds) batch.items → All (IsCubeOf n holds) (cubes_in found.now) → All (IsPatternOf n holds) v.items) }
    ensures few { IfOk result (λ v. length v.items ≤ length batch.items + length (cubes_in found.now)) }
    ensures agree { IfOk result (λ v. (c : Values) → Contains (cubes_in found.now) c → HasAgreeing v.items c) }
{
    let mut others = filled(alloc, found, stream, seed)?;
    batch.append(&mut others)?;
    Ok(batch)
}
