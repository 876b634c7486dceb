//! The patterns that are the last to detect some transition fault, and what so comes of each fault. A pattern that detects what a later one does
//! too is dropped, as in compaction in reverse order; there is no collapsing, since two transition faults of a gate's lines rarely are one.
ghost use Rattle.std.specs.Prelude.{◌≡◌, ◌+◌, ◌≤◌, ◌<◌, ◌^◌, ℕ, Bool, false, length, slice_index, slice_index_or, IfOk, IfSome};
ghost use Rattle.std.specs.List.{All, AllZip};
ghost use Rattle.statement.specs.Faults.{universe_of};
ghost use Rattle.list_core.specs.Kept.{is_last_at, kept_from, new_place};
ghost use Rattle.cubes.specs.Cubes.{IsPatternOf};
ghost use Rattle.transition_tests.specs.Making.{AreMadeFrom};
ghost use Rattle.transition_tests.specs.SlowLines.{AreSlowLines};
ghost use Rattle.transition_tests.specs.Verdicts.{AreKnown, AreTests, MayHave};
ghost use Rattle.transition_tests.specs.inner.Ends.{AreVerdictsOf, IsVerdictOf, IsDetectedIfTested};

use crate::filling::patterns_of;
use crate::slow_lines::SlowLines;
use crate::verdicts::{Tests, TransitionVerdict};
use cubes::Pattern;
use evidence::{Evidence, Found};
use list_core::{kept, needed, new_places};
use netlist::{NoMemory, Point};
use std::alloc::{AllocError, Global};
use transition_sim::last_tells2;

/// What comes of a fault: where it is last detected, by the new place of that pattern, or else what the search answered.
fn verdict_of(
    answer: Option<Found>,
    last: &Option<(u32, Point)>,
    places: &[u32],
) -> TransitionVerdict
    requires told { IsDetectedIfTested answer last.now }
    requires within { IfSome last.now (λ l. l.0 < length places.now) }
    ensures { IsVerdictOf (λ k. slice_index places.now k) answer last.now result }
{
    if let Some((place, point)) = last {
        drop(answer);
        return TransitionVerdict::Detected(places[*place as usize], *point);
    }
    match answer {
        None | Some(Found::Test(_, _)) => unreachable!(),
        Some(Found::Closed(tree)) => TransitionVerdict::Redundant(Evidence::Tree(tree)),
        Some(Found::Refuted(steps)) => TransitionVerdict::Redundant(Evidence::Refutation(steps)),
        Some(Found::Partial(tree)) => TransitionVerdict::Aborted(tree),
    }
}

/// What comes of each fault.
fn verdicts_of(
    alloc: Global,
    found: Vec<Option<Found>>,
    last: &[Option<(u32, Point)>],
    places: &[u32],
) -> Result<Vec<TransitionVerdict>, AllocError>
    requires told { AllZip IsDetectedIfTested found.items last.now }
    requires within { All (λ l. IfSome l (λ p. p.0 < length places.now)) last.now }
    ensures { IfOk result (λ v. AreVerdictsOf (λ k. slice_index places.now k) found.items last.now v.items) }
{
    let mut verdicts = Vec::new(alloc);
    let mut fault = 0usize;
    for answer in found {
        verdicts.push(verdict_of(answer, &last[fault], places))?;
        fault += 1;
    }
    Ok(verdicts)
}

/// What comes of each fault, where the patterns that aren't marked are left out.
fn verdicts_kept(
    alloc: Global,
    marks: &[bool],
    last: &[Option<(u32, Point)>],
    found: Vec<Option<Found>>,
) -> Result<Vec<TransitionVerdict>, AllocError>
    requires told { AllZip IsDetectedIfTested found.items last.now }
    requires within { All (λ l. IfSome l (λ p. p.0 < length marks.now)) last.now }
    requires few { length marks.now + 1 < 2 ^ 32 }
    requires marks { (k : ℕ) → slice_index_or marks.now k false ≡ is_last_at last.now k }
    ensures { IfOk result (λ v. AreVerdictsOf (new_place (is_last_at last.now)) found.items last.now v.items) }
{
    let places = new_places(alloc, marks)?;
    let verdicts = verdicts_of(alloc, found, last, &places);
    drop(places);
    verdicts
}

/// The patterns that are the last to detect some fault, and what comes of each fault.
fn keep(
    alloc: Global,
    patterns: Vec<Pattern>,
    last: &[Option<(u32, Point)>],
    found: Vec<Option<Found>>,
) -> Result<Tests, AllocError>
    requires told { AllZip IsDetectedIfTested found.items last.now }
    requires within { All (λ l. IfSome l (λ p. p.0 < length patterns.items)) last.now }
    requires few { length patterns.items + 1 < 2 ^ 32 }
    ensures patterns { IfOk result (λ t. t.patterns.items ≡ kept_from (is_last_at last.now) 0 patterns.items) }
    ensures verdicts { IfOk result (λ t. AreVerdictsOf (new_place (is_last_at last.now)) found.items last.now t.verdicts.items) }
{
    let marks = needed(alloc, patterns.len(), last)?;
    let verdicts = verdicts_kept(alloc, &marks, last, found)?;
    let patterns = kept(alloc, patterns, &marks)?;
    Ok(Tests { patterns, verdicts })
}

/// Tests of a design's transition faults from what the searches found of those that no pattern of a batch detects: behind the batch their cubes, merged
/// in the order of faults and filled from the seed, and of all patterns those that are the last to detect some fault.
pub fn tests_of(
    alloc: Global,
    lines: &SlowLines<'_>,
    batch: Vec<Pattern>,
    found: Vec<Option<Found>>,
) -> Result<Tests, NoMemory>
    ghost refutes: { Bool }
    requires lines { AreSlowLines lines.now.core.now lines.now.holds.now lines.now.faults.now }
    requires batch { All (IsPatternOf lines.now.core.now lines.now.holds.now) batch.items }
    requires count { length batch.items ≤ length (universe_of lines.now.core.now) + 64 }
    requires known { AreKnown lines.now.core.now lines.now.holds.now lines.now.limit refutes batch.items found.items }
    ensures tests { IfOk result (λ t. AreTests lines.now.core.now lines.now.holds.now lines.now.limit t.patterns.items t.verdicts.items) }
    ensures kinds { IfOk result (λ t. All (MayHave refutes) t.verdicts.items) }
    ensures made { IfOk result (λ t. AreMadeFrom lines.now.core.now batch.items found.items lines.now.seed t.patterns.items) }
    ensures few { IfOk result (λ t. length t.patterns.items < 2 ^ 32) }
{
    lines.core.netlist().sound();
    let patterns = patterns_of(alloc, batch, &found, 0, lines.seed)?;
    let last = last_tells2(alloc, lines.core, lines.faults, &patterns)?;
    let tests = keep(alloc, patterns, &last, found)?;
    Ok(tests)
}
