//! Two rounds of searches. The first is over a part of the faults that the drawn patterns leave; what the patterns of its tests detect isn't searched in
//! the second, which is over all the others.
//!
//! Tests of the first round, filled, detect most of what can be detected behind the drawn patterns, so that further rounds would spare few searches. A
//! deeper draw spares as many, but leaves more patterns. The first round takes faults that stand apart: their tests differ, and their lines fit into fewer
//! batches, since neighbours in the order of faults are often late at one reader.
ghost use Rattle.std.specs.Prelude.{◌≡◌, ◌≤◌, ◌+◌, ◌<◌, ◌&&◌, count_by, length, slice_index_or, slice_set, IfOk, None};
ghost use Rattle.std.specs.List.{All, AllPairs};
ghost use Rattle.statement.specs.Netlists.{Netlist};
ghost use Rattle.statement.specs.Patterns.{Holds};
ghost use Rattle.cubes.specs.Cubes.{HaveSameWidths, IsCubeOf, IsPatternOf};
ghost use Rattle.transition_tests.specs.Making.{AreBehind, cubes_in};
ghost use Rattle.transition_tests.specs.Rounds.{AreFirst, AreJoined, AreUnanswered, are_many, is_sixteenth, joined, unanswered};

use crate::filling::patterns_of;
use cubes::Pattern;
use evidence::Found;
use netlist::NoMemory;
use std::alloc::Global;
use std::mem;

/// The first round takes each fault that is left of so many.
const FIRST: usize = 16;

/// Where no more faults are left, one round has them all.
const ENOUGH: usize = 128;

/// How many faults are left.
fn left_count(left: &[bool]) -> usize
    ensures { result ≡ count_by (λ is_left. is_left) left.now }
{
    left.iter().filter(|is_left| **is_left).count()
}

/// Whether so many are left that the first round takes some of them.
fn are_many(left: &[bool]) -> bool
    ensures { result ≡ are_many left.now }
{
    left_count(left) > ENOUGH
}

/// Whether the first round takes the fault at a place.
fn is_taken(many: bool, is_left: bool, place: usize) -> bool
    ensures { result ≡ (many && is_sixteenth is_left place) }
{
    many && is_left && place % FIRST == 0
}

/// Which faults the first round searches: where many are left one in sixteen of them, else none.
pub fn first_round(alloc: Global, left: &[bool]) -> Result<Vec<bool>, NoMemory>
    ensures { IfOk result (λ v. AreFirst left.now v.items) }
{
    let many = are_many(left);
    let mut marks = Vec::with_capacity(alloc, left.len())?;
    for k in 0..left.len() {
        marks.push(is_taken(many, left[k], k))?;
    }
    Ok(marks)
}

/// The patterns so far, and behind them those of a round's tests: their cubes merged in the order of faults, and filled from stream 2 of the seed.
pub fn with_tests(
    alloc: Global,
    batch: Vec<Pattern>,
    found: &[Option<Found>],
    seed: u64,
) -> Result<Vec<Pattern>, NoMemory>
    requires { AllPairs HaveSameWidths (cubes_in found.now) }
    ensures made { IfOk result (λ v. AreBehind batch.items (cubes_in found.now) 2 seed v.items) }
    ensures obey { IfOk result (λ v. (n : Netlist) (holds : Holds) → All (IsPatternOf n holds) batch.items → All (IsCubeOf n holds) (cubes_in found.now) → All (IsPatternOf n holds) v.items) }
    ensures few { IfOk result (λ v. length v.items ≤ length batch.items + length found.now) }
{
    patterns_of(alloc, batch, found, 2, seed)
}

/// Whether a fault is left that has no answer yet.
fn is_open(left: bool, answer: &Option<Found>) -> bool
    ensures { result ≡ unanswered left answer.now }
{
    left && answer.is_none()
}

/// Which faults the second round searches: of those that are left all that have no answer yet.
pub fn second_round(
    alloc: Global,
    left: &[bool],
    found: &[Option<Found>],
) -> Result<Vec<bool>, NoMemory>
    requires { length found.now ≡ length left.now }
    ensures { IfOk result (λ v. AreUnanswered left.now found.now v.items) }
{
    let mut marks = Vec::with_capacity(alloc, left.len())?;
    for k in 0..left.len() {
        marks.push(is_open(left[k], &found[k]))?;
    }
    Ok(marks)
}

/// Puts the first round's answer for a fault that is left to its place.
fn put(answers: &mut Vec<Option<Found>>, k: usize, left: bool, answer: Option<Found>)
    requires { k < length answers.old.items }
    ensures { answers.new.items ≡ slice_set answers.old.items k (joined left answer (slice_index_or answers.old.items k None)) }
{
    if left && answer.is_some() {
        drop(mem::replace(&mut answers[k], answer));
    } else {
        drop(answer);
    }
}

/// The answers of both rounds for the faults that are left behind the first.
pub fn all_answers(
    left: &[bool],
    found: Vec<Option<Found>>,
    more: Vec<Option<Found>>,
) -> Vec<Option<Found>>
    requires found { length found.items ≡ length left.now }
    requires more { length more.items ≡ length left.now }
    ensures { AreJoined left.now found.items more.items result.items }
{
    let mut answers = more;
    let mut k = 0usize;
    for answer in found {
        put(&mut answers, k, left[k], answer);
        k += 1;
    }
    answers
}
