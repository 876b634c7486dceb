//! Classes of which some are marked: the weights and the verdicts of the others.
ghost use Rattle.std.specs.Prelude.{◌≡◌, ◌∷◌, ◌++◌, [], ◌<◌, ◌^◌, List, Bool, IfOk, OnOk, length};
ghost use Rattle.std.specs.Vec.Iter.{into_iter_items};
ghost use Rattle.run_files.specs.inner.Searches.{IsGoalOf};
ghost use Rattle.run_files.specs.inner.Spread.{marked_weight, spread, unmarked_weights};

use list_core::{Goal, Verdict};
use std::alloc::{AllocError, Global};
use std::vec::IntoIter;

/// Adds the weight, where it isn't marked.
fn push_unmarked(left: &mut Vec<u32>, weight: u32, marked: bool) -> Result<(), AllocError>
    ensures { OnOk result (left.new.items ≡ left.old.items ++ unmarked_weights (marked ∷ []) (weight ∷ [])) }
{
    if !marked {
        left.push(weight)?;
    }
    Ok(())
}

/// The weights of those that aren't marked, in order.
pub(crate) fn unmarked_weights(
    alloc: Global,
    weights: &[u32],
    marks: &[bool],
) -> Result<Vec<u32>, AllocError>
    requires { length marks.now ≡ length weights.now }
    ensures { IfOk result (λ v. v.items ≡ unmarked_weights marks.now weights.now) }
{
    let mut left = Vec::new(alloc);
    for k in 0..weights.len() {
        push_unmarked(&mut left, weights[k], marks[k])?;
    }
    Ok(left)
}

/// The weight, where it is marked.
fn if_marked(weight: u32, marked: bool) -> u32
    ensures { result ≡ marked_weight (marked ∷ []) (weight ∷ []) }
{
    if marked { weight } else { 0 }
}

/// What those that are marked weigh together.
fn marked_weight(weights: &[u32], marks: &[bool]) -> u64
    requires { (length marks.now ≡ length weights.now) × (length weights.now < 2 ^ 32) }
    ensures { result ≡ marked_weight marks.now weights.now }
{
    let mut weight = 0u64;
    for k in 0..weights.len() {
        weight += if_marked(weights[k], marks[k]) as u64;
    }
    weight
}

/// How much of those that aren't marked is to be detected, where so many in a hundred of `asked` faults are enough.
pub(crate) fn goal_of(
    alloc: Global,
    percent: Option<u32>,
    asked: u32,
    weights: &[u32],
    marks: &[bool],
) -> Result<Option<Goal>, AllocError>
    requires { (length marks.now ≡ length weights.now) × (length weights.now < 2 ^ 32) }
    ensures { IfOk result (IsGoalOf percent asked weights.now marks.now) }
{
    let Some(percent) = percent else {
        return Ok(None);
    };
    let enough = (percent as u64 * asked as u64).div_ceil(100);
    Ok(Some(Goal {
        weights: unmarked_weights(alloc, weights, marks)?,
        enough: enough.saturating_sub(marked_weight(weights, marks)),
    }))
}

/// The next verdict, where the class isn't marked.
fn next_verdict(rest: &mut IntoIter<Verdict>, marked: bool) -> Verdict
    ensures { (marks : List Bool) → spread (marked ∷ marks) (into_iter_items rest.old) ≡ result ∷ spread marks (into_iter_items rest.new) }
{
    if marked {
        return Verdict::Open;
    }
    match rest.next() {
        Some(verdict) => verdict,
        None => Verdict::Open,
    }
}

/// Open where a class is marked, and in order the verdicts of the others.
pub(crate) fn spread(
    alloc: Global,
    marks: &[bool],
    verdicts: Vec<Verdict>,
) -> Result<Vec<Verdict>, AllocError>
    ensures { IfOk result (λ v. v.items ≡ spread marks.now verdicts.items) }
{
    let mut rest = verdicts.into_iter();
    let mut all = Vec::with_capacity(alloc, marks.len())?;
    for marked in marks {
        all.push(next_verdict(&mut rest, *marked))?;
    }
    Ok(all)
}
