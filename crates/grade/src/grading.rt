//! Lines, graded in batches of 512: 128 are played side by side, and those that are left are packed together anew.
//!
//! A play ends once each line of the batch met a strobe that isn't known and equal. That tells of all lines but of those at which X was shown there: for
//! their sake the batch is played again, by a judge who passes over what isn't known.
ghost use Rattle.std.specs.Prelude.{◌≡◌, ◌^◌, ◌<◌, IfOk, length, map};
ghost use Rattle.std.specs.List.{All, AllZip, list_any, zip};
ghost use Rattle.scan_play.specs.Cycles.{IsCycleOf};
ghost use Rattle.scan_play.specs.inner.Unmet.{unmet_by};
ghost use Rattle.lane_play.specs.Judged.{AreJudged};
ghost use Rattle.grade.specs.Grades.{IsGraded};
ghost use Rattle.grade.specs.inner.Told.{grade_of, grade_told, is_open};

use crate::batching::batch_at;
use crate::grade::Grade;
use chain_test::first_wrongs;
use lane_play::play_lanes;
use netlist::{Core, Fault, NoMemory};
use outside::{Gate, OpenGate, Stage};
use scan_play::{Played, Strict, Vectors};
use std::alloc::{AllocError, Global};

/// So many lines are graded before others are packed together.
const BATCH: usize = 512;

/// The grade where this was said of the first strobe that isn't met, and that is the first place that is known to be wrong.
fn grade_of(unmet: Option<Played>, wrong: Option<(u64, u32)>) -> Grade
    ensures { result ≡ grade_of unmet wrong }
{
    match unmet {
        None => Grade::Undetected,
        Some(Played::Passes) => Grade::Undetected,
        Some(Played::Fails(cycle, output)) => Grade::Detected(cycle, output),
        Some(Played::Unknown(_cycle, _output)) => match wrong {
            Some((cycle, output)) => Grade::Detected(cycle, output),
            None => Grade::Unknown,
        },
    }
}

/// The grade where the first strobe that isn't met tells it.
fn grade_told(unmet: Option<Played>) -> Grade
    ensures { result ≡ grade_told unmet }
{
    grade_of(unmet, None)
}

/// Whether nothing is known at the first strobe that isn't met.
fn is_open(unmet: Option<Played>) -> bool
    ensures { result ≡ is_open unmet }
{
    match unmet {
        None => false,
        Some(Played::Passes) => false,
        Some(Played::Fails(_cycle, _output)) => false,
        Some(Played::Unknown(_cycle, _output)) => true,
    }
}

fn are_open(unmet: &[Option<Played>]) -> bool
    ensures { result ≡ list_any is_open unmet.now }
{
    unmet.iter().any(|one| is_open(*one))
}

fn grades_told(alloc: Global, unmet: &[Option<Played>]) -> Result<Vec<Grade>, AllocError>
    ensures { IfOk result (λ grades. grades.items ≡ map grade_told unmet.now) }
{
    unmet.iter().map(|one| grade_told(*one)).collect(alloc)
}

fn grades_of(
    alloc: Global,
    unmet: &[Option<Played>],
    wrong: &[Option<(u64, u32)>],
) -> Result<Vec<Grade>, AllocError>
    ensures { IfOk result (λ grades. grades.items ≡ map (λ p. grade_of p.0 p.1) (zip unmet.now wrong.now)) }
{
    unmet
        .iter()
        .zip(wrong)
        .map(|(one, place)| grade_of(*one, *place))
        .collect(alloc)
}

/// The grades of lines by the first strobes that aren't met, and where nothing is known at one, by the first places that are known to be wrong.
fn grades_from(
    alloc: Global,
    core: &Core,
    lines: &[Fault],
    vectors: &Vectors,
    unmet: &[Option<Played>],
) -> Result<Vec<Grade>, NoMemory>
    requires fits { All (IsCycleOf core.now) vectors.now }
    requires few { length vectors.now < 2 ^ 64 }
    requires judged { AreJudged unmet_by core.now lines.now vectors.now unmet.now }
    ensures { IfOk result (λ grades. AllZip (λ f grade. IsGraded core.now f vectors.now grade) lines.now grades.items) }
{
    core.netlist().sound();
    if !are_open(unmet) {
        let grades = grades_told(alloc, unmet)?;
        return Ok(grades);
    }
    let wrong = first_wrongs(alloc, &OpenGate, core, lines, vectors)?;
    let grades = grades_of(alloc, unmet, &wrong)?;
    Ok(grades)
}

/// The grades of the lines of a batch.
fn batch_grades(
    alloc: Global,
    core: &Core,
    lines: &[Fault],
    vectors: &Vectors,
) -> Result<Vec<Grade>, NoMemory>
    requires fits { All (IsCycleOf core.now) vectors.now }
    requires few { length vectors.now < 2 ^ 64 }
    ensures { IfOk result (λ grades. AllZip (λ f grade. IsGraded core.now f vectors.now grade) lines.now grades.items) }
{
    let unmet = play_lanes(alloc, core, lines, vectors, &Strict)?;
    grades_from(alloc, core, lines, vectors, &unmet)
}

/// What is passed before these lines are graded.
pub(crate) fn begun(lines: &[Fault]) -> Stage {
    Stage::Begun {
        count: lines.len() as u64,
    }
}

/// What is passed once some lines have these grades.
pub(crate) fn answered(grades: &[Grade]) -> Stage {
    let detected = grades
        .iter()
        .filter(|grade| matches!(**grade, Grade::Detected(_, _)))
        .count();
    Stage::Answered {
        count: grades.len() as u64,
        detected: detected as u64,
    }
}

/// The grade of each of these lines, in their order.
pub(crate) fn line_grades<G: Gate>(
    alloc: Global,
    stage: &G,
    core: &Core,
    lines: &[Fault],
    vectors: &Vectors,
) -> Result<Vec<Grade>, NoMemory>
    requires fits { All (IsCycleOf core.now) vectors.now }
    requires few { length vectors.now < 2 ^ 64 }
    ensures { IfOk result (λ grades. AllZip (λ f grade. IsGraded core.now f vectors.now grade) lines.now grades.items) }
{
    stage.at(0, begun(lines));
    let mut all = Vec::with_capacity(alloc, lines.len())?;
    for batch in 0..lines.len().div_ceil(BATCH) {
        let own = batch_at(lines, batch * BATCH, BATCH);
        let grades = batch_grades(alloc, core, own, vectors)?;
        all.extend_from_slice(&grades)?;
        stage.at(0, answered(&grades));
    }
    Ok(all)
}
