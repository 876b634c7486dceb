//! Cubes filled to patterns.
ghost use Rattle.std.specs.Prelude.{◌≡◌, ◌+◌, ◌≤◌, ◌++◌, length, IfOk, OnOk, OnErr, vec_len, vec_capacity};
ghost use Rattle.std.specs.List.{All, AllZip};
ghost use Rattle.statement.specs.Netlists.{Netlist};
ghost use Rattle.statement.specs.Patterns.{Holds};
ghost use Rattle.cubes.specs.Cubes.{AgreesWith, IsCubeOf, IsPatternOf};
ghost use Rattle.cubes.specs.Filling.{filled, words_after, filled_cube, words_after_cube, filled_all, words_after_all};

use crate::patterns::{Cube, Pattern};
use netlist::{NoMemory, Tri};
use rand_core::Rng;
use std::alloc::{AllocError, Global};

/// Adds a bit for each value, within the room that is there.
fn fill_values<R: Rng>(values: &[Tri], rng: &mut R, bits: &mut Vec<bool>)
    requires { vec_len bits.old + length values.now ≤ vec_capacity bits.old }
    ensures bits { bits.new.items ≡ bits.old.items ++ filled values.now (R.stream rng.old) }
    ensures left { R.stream rng.new ≡ words_after values.now (R.stream rng.old) }
{
    for value in values {
        let bit = match value {
            Tri::Zero => false,
            Tri::One => true,
            Tri::X => rng.next_u32() % 2 == 1,
        };
        let _ = bits.push(bit);
    }
}

/// A pattern with the bits of the cube, where each X, inputs first, takes the lowest bit of one word.
pub fn fill<R: Rng>(alloc: Global, cube: &Cube, rng: &mut R) -> Result<Pattern, NoMemory>
    ensures pattern { IfOk result (λ p. p ≡ filled_cube cube.now (R.stream rng.old)) }
    ensures left { OnOk result (R.stream rng.new ≡ words_after_cube cube.now (R.stream rng.old)) }
    ensures agrees { IfOk result (λ p. AgreesWith p cube.now) }
    ensures fits { IfOk result (λ p. (n : Netlist) (holds : Holds) → IsCubeOf n holds cube.now → IsPatternOf n holds p) }
    ensures refused { OnErr result (R.stream rng.new ≡ R.stream rng.old) }
{
    let mut inputs = Vec::with_capacity(alloc, cube.inputs().len())?;
    let mut cells = Vec::with_capacity(alloc, cube.cells().len())?;
    fill_values(cube.inputs(), rng, &mut inputs);
    fill_values(cube.cells(), rng, &mut cells);
    Ok(Pattern::new(inputs, cells))
}

/// A pattern for each cube, each filled from the words that those before it leave.
pub fn fill_all<R: Rng>(
    alloc: Global,
    cubes: &[Cube],
    rng: &mut R,
) -> Result<Vec<Pattern>, NoMemory>
    ensures patterns { IfOk result (λ v. v.items ≡ filled_all cubes.now (R.stream rng.old)) }
    ensures left { OnOk result (R.stream rng.new ≡ words_after_all cubes.now (R.stream rng.old)) }
    ensures agree { IfOk result (λ v. AllZip AgreesWith v.items cubes.now) }
    ensures fit { IfOk result (λ v. (n : Netlist) (holds : Holds) → All (IsCubeOf n holds) cubes.now → All (IsPatternOf n holds) v.items) }
{
    let mut patterns = Vec::new(alloc);
    for cube in cubes {
        patterns.push(fill(alloc, cube, rng)?)?;
    }
    Ok(patterns)
}
