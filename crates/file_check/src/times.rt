//! How often each fault is detected, against what the report says of it.
ghost use Rattle.std.specs.Prelude.{◌≡◌, ◌-◌, ◌<◌, ◌^◌, length, min, IfOk, MatchBool};
ghost use Rattle.std.specs.List.{All};
ghost use Rattle.statement.specs.Faults.{universe_of};
ghost use Rattle.run_report.specs.Subjects.{IsSubjectOf};
ghost use Rattle.run_report.specs.Times.{HasTimes};
ghost use Rattle.file_check.specs.inner.Times.{AreOfClasses};
ghost use Rattle.file_check.specs.inner.Trials.{IsTrial};

use crate::trials::Trial;
use detections::{times_alike, times_of, times_once};
use fault_collapse::{Classes, detected_alike};
use fault_universe::faults_have_lines;
use netlist::NoMemory;
use report::Times;
use run_report::Subject;
use std::alloc::Global;

/// To how many detections are counted where the report says so many. A test has fewer patterns than 32 bits can count, so no number is cut by it.
fn counted_to(most: u64) -> u32
    ensures { result ≡ min most (2 ^ 32 - 1) }
{
    most.min(u64::from(u32::MAX)) as u32
}

/// Whether the number at each place is that of the class of the fault there.
fn are_of_classes(classes: &Classes, times: &[u32], count: u32, said: &[u64]) -> bool
    requires count { length said.now ≡ count }
    requires size { length classes.now.numbers ≡ count }
    requires within { All (λ class. class < length times.now) classes.now.numbers }
    ensures { MatchBool result (AreOfClasses classes.now times.now said.now count) (¬ AreOfClasses classes.now times.now said.now count) }
{
    for place in 0..count {
        let class = classes.class_of(place);
        if said[place as usize] != u64::from(times[class as usize]) {
            return false;
        }
    }
    true
}

/// The same, where the report counts detections and has a number for each fault. Each class is counted once, by its representative.
fn are_counted(
    alloc: Global,
    trial: &Trial<'_>,
    subject: &Subject,
    said: &Times,
) -> Result<bool, NoMemory>
    requires trial { IsTrial trial.now }
    requires subject { IsSubjectOf trial.now.core.now subject.now }
    requires some { 0 < said.now.most }
    requires count { length said.now.of ≡ length (universe_of trial.now.core.now) }
    ensures { IfOk result (λ right. MatchBool right
        (HasTimes trial.now.core.now trial.now.patterns.now said.now)
        (¬ HasTimes trial.now.core.now trial.now.patterns.now said.now)) }
{
    faults_have_lines();
    detected_alike();
    times_alike();
    times_once();
    let representatives = subject.classes.representatives();
    let most = counted_to(said.most());
    let times = times_of(alloc, trial.core, representatives, trial.patterns, most)?;
    let count = subject.faults.len();
    Ok(are_of_classes(&subject.classes, &times, count, said.of()))
}

/// Whether the report's number of each fault is the one that follows. None is counted where no number is told.
pub(crate) fn has_times(
    alloc: Global,
    trial: &Trial<'_>,
    subject: &Subject,
    said: &Times,
) -> Result<bool, NoMemory>
    requires trial { IsTrial trial.now }
    requires subject { IsSubjectOf trial.now.core.now subject.now }
    ensures { IfOk result (λ right. MatchBool right
        (HasTimes trial.now.core.now trial.now.patterns.now said.now)
        (¬ HasTimes trial.now.core.now trial.now.patterns.now said.now)) }
{
    if said.most() == 0 {
        return Ok(true);
    }
    if said.of().len() != subject.faults.len() as usize {
        return Ok(false);
    }
    are_counted(alloc, trial, subject, said)
}
