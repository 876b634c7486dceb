//! Compaction of patterns by where each class is last detected.
ghost use Rattle.std.specs.Prelude.{◌≡◌, ◌+◌, ◌<◌, ◌≤◌, ◌^◌, ◌||◌, ◌∷◌, [], ℕ, Bool, List, false, IfOk, IfSome, length, slice_index, slice_index_or, slice_set, vec_len};
ghost use Rattle.std.specs.List.{All};
ghost use Rattle.statement.specs.declared.lines.Fault.{Fault as FaultOf};
ghost use Rattle.statement.specs.Netlists.{Netlist};
ghost use Rattle.list_core.specs.Verdicts.{verdict_at};
ghost use Rattle.list_core.specs.Kept.{AreLastDetected, is_last_at, new_place};
ghost use Rattle.list_core.specs.Finished.{AreFinished};
ghost use Rattle.list_core.specs.inner.Marks.{last_at, new_verdict, ArePlaces, AreRenamed};

use crate::keeping::{kept, new_places};
use crate::verdicts::Verdict;
use cubes::Pattern;
use netlist::{NoMemory, Point};
use std::alloc::{AllocError, Global};

/// The kept patterns, and for each class its verdict, which names places among them.
#[derive(Drop)]
pub struct Finished {
    pub patterns: Vec<Pattern>,
    pub verdicts: Vec<Verdict>,
}

/// Marks the place where the class is last detected.
fn mark(marks: &mut Vec<bool>, class: &Option<(u32, Point)>)
    requires { IfSome class.now (λ p. p.0 < vec_len marks.old) }
    ensures size { vec_len marks.new ≡ vec_len marks.old }
    ensures marks { (k : ℕ) → slice_index_or marks.new.items k false ≡ (slice_index_or marks.old.items k false || is_last_at (class.now ∷ []) k) }
{
    if let Some((place, _)) = class {
        marks[*place as usize] = true;
    }
}

fn no_marks(alloc: Global, places: usize) -> Result<Vec<bool>, AllocError>
    ensures size { IfOk result (λ v. vec_len v ≡ places) }
    ensures marks { IfOk result (λ v. (k : ℕ) → slice_index_or v.items k false ≡ false) }
{
    let mut marks = Vec::with_capacity(alloc, places)?;
    for _place in 0..places {
        marks.push(false)?;
    }
    Ok(marks)
}

/// A mark for each place where some class is last detected.
pub fn needed(
    alloc: Global,
    places: usize,
    last: &[Option<(u32, Point)>],
) -> Result<Vec<bool>, AllocError>
    requires { All (λ l. IfSome l (λ p. p.0 < places)) last.now }
    ensures size { IfOk result (λ v. vec_len v ≡ places) }
    ensures marks { IfOk result (λ v. (k : ℕ) → slice_index_or v.items k false ≡ is_last_at last.now k) }
{
    let mut marks = no_marks(alloc, places)?;
    for class in last {
        mark(&mut marks, class);
    }
    Ok(marks)
}

/// Names a class that is detected by the new place of its last pattern.
fn rename_one(
    verdicts: &mut Vec<Verdict>,
    class: usize,
    known: &Option<(u32, Point)>,
    places: &[u32],
)
    requires class { class < vec_len verdicts.old }
    requires within { IfSome known.now (λ p. p.0 < length places.now) }
    ensures size { vec_len verdicts.new ≡ vec_len verdicts.old }
    ensures named { (marked : ℕ → Bool) → ArePlaces marked places.now → verdicts.new.items ≡ slice_set verdicts.old.items class (new_verdict marked known.now (verdict_at verdicts.old.items class)) }
{
    if let Some((place, point)) = known {
        verdicts[class] = Verdict::Detected(places[*place as usize], *point);
    }
}

/// Names each class that is detected by the new place of its last pattern.
fn rename(verdicts: &mut Vec<Verdict>, last: &[Option<(u32, Point)>], places: &[u32])
    requires size { length last.now ≡ vec_len verdicts.old }
    requires within { All (λ l. IfSome l (λ p. p.0 < length places.now)) last.now }
    ensures { (marked : ℕ → Bool) → ArePlaces marked places.now → AreRenamed marked last.now verdicts.old.items verdicts.new.items }
{
    for (class, known) in last.iter().enumerate() {
        rename_one(verdicts, class, known, places);
    }
}

/// The patterns that are the last to detect some class are kept, by where each class is last detected.
pub fn compact(
    alloc: Global,
    patterns: Vec<Pattern>,
    verdicts: Vec<Verdict>,
    last: &[Option<(u32, Point)>],
) -> Result<Finished, NoMemory>
    requires size { length last.now ≡ vec_len verdicts }
    requires within { All (λ l. IfSome l (λ p. p.0 < vec_len patterns)) last.now }
    requires few { vec_len patterns + 1 < 2 ^ 32 }
    ensures { IfOk result (λ f. (n : Netlist) (faults : List FaultOf) → AreLastDetected n patterns.items faults last.now → AreFinished n faults patterns.items verdicts.items f.patterns.items f.verdicts.items) }
{
    let mut verdicts = verdicts;
    let marks = needed(alloc, patterns.len(), last)?;
    let places = new_places(alloc, &marks)?;
    rename(&mut verdicts, last, &places);
    let patterns = kept(alloc, patterns, &marks)?;
    Ok(Finished { patterns, verdicts })
}
