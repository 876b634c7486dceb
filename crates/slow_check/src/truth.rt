//! Whether what a line of the report says of a slow line is true.
ghost use Rattle.std.specs.Prelude.{◌≡◌, IfOk, IfSome, MatchBool};
ghost use Rattle.std.specs.List.{Contains};
ghost use Rattle.statement.specs.Faults.{universe_of};
ghost use Rattle.run_report.specs.Strobes.{IsPointOf};
ghost use Rattle.transition_sim.specs.Detections.{LastTransition};
ghost use Rattle.transition_report.specs.Strobes.{IsLaunchSeenAt};
ghost use Rattle.check_parts.specs.Ends.{IsLeftOpenBy, IsShutBy};
ghost use Rattle.check_parts.specs.Sights.{IsSeenBy};
ghost use Rattle.good_slow_files.specs.GoodSlowFiles.{IsTrueOfSlow};
ghost use Rattle.slow_check.specs.inner.Trials.{slow_test_of};
ghost use Rattle.slow_check.specs.inner.Walking.{IsReady, IsShownOpen, IsShownShut};

use crate::evident::first_ends;
use crate::walking::Walk;
use netlist::{Fault, NoMemory, Point};
use redundancy_cert::Counts;
use report::{FaultLine, Outcome};
use std::alloc::Global;
use transition_report::sight_behind;

/// Whether the last pattern that detects the slow line is this one, and its first point is seen in this cycle at this pin.
fn is_seen_so(
    walk: &Walk<'_>,
    last: &Option<(u32, Point)>,
    place: u64,
    cycle: u64,
    pin: &[u8],
) -> bool
    requires ready { IsReady walk.now }
    requires inside { IfSome last.now (λ w. IsPointOf walk.now.trial.now.netlist.now w.1) }
    ensures { MatchBool result
        (IsSeenBy (IsLaunchSeenAt walk.now.trial.now.netlist.now walk.now.trial.now.chains.now) last.now place cycle pin.now)
        (¬ IsSeenBy (IsLaunchSeenAt walk.now.trial.now.netlist.now walk.now.trial.now.chains.now) last.now place cycle pin.now) }
{
    let trial = walk.trial;
    match last {
        None => false,
        Some((own, point)) => {
            if place != *own as u64 {
                return false;
            }
            let sight = sight_behind(trial.netlist, trial.chains, walk.pins, *own, *point);
            if cycle != sight.cycle {
                return false;
            }
            pin == sight.pin
        }
    }
}

/// Whether evidence with these ends leaves nothing open.
fn is_shut(ends: &Option<Counts>) -> bool
    ensures { MatchBool result (IsShutBy ends.now) (¬ IsShutBy ends.now) }
{
    match ends {
        Some(counts) => counts.left_open == 0,
        None => false,
    }
}

/// Whether it leaves an end open, and has so many closed ends.
fn is_left_open(ends: &Option<Counts>, limit: u64) -> bool
    ensures { MatchBool result (IsLeftOpenBy limit ends.now) (¬ IsLeftOpenBy limit ends.now) }
{
    match ends {
        Some(counts) => counts.closed == limit && counts.left_open >= 1,
        None => false,
    }
}

/// Whether no pattern detects the slow line, and its evidence leaves nothing open.
fn is_redundant(
    alloc: Global,
    walk: &Walk<'_>,
    fault: &Fault,
    last: &Option<(u32, Point)>,
) -> Result<bool, NoMemory>
    requires ready { IsReady walk.now }
    requires member { Contains (universe_of walk.now.trial.now.netlist.now) fault.now }
    requires last { LastTransition walk.now.trial.now.netlist.now walk.now.trial.now.patterns.now fault.now last.now }
    ensures { IfOk result (λ yes. MatchBool yes (IsShownShut (slow_test_of walk.now.trial.now) fault.now) (¬ IsShownShut (slow_test_of walk.now.trial.now) fault.now)) }
{
    if last.is_some() {
        return Ok(false);
    }
    let ends = first_ends(alloc, walk, fault)?;
    Ok(is_shut(&ends))
}

/// Whether no pattern detects the slow line, and its evidence leaves an end open and has as many closed ends as the backtrack limit.
fn is_aborted(
    alloc: Global,
    walk: &Walk<'_>,
    fault: &Fault,
    last: &Option<(u32, Point)>,
) -> Result<bool, NoMemory>
    requires ready { IsReady walk.now }
    requires member { Contains (universe_of walk.now.trial.now.netlist.now) fault.now }
    requires last { LastTransition walk.now.trial.now.netlist.now walk.now.trial.now.patterns.now fault.now last.now }
    ensures { IfOk result (λ yes. MatchBool yes (IsShownOpen (slow_test_of walk.now.trial.now) fault.now) (¬ IsShownOpen (slow_test_of walk.now.trial.now) fault.now)) }
{
    if last.is_some() {
        return Ok(false);
    }
    let ends = first_ends(alloc, walk, fault)?;
    Ok(is_left_open(&ends, walk.trial.limit))
}

/// Whether what a line says of a slow line is true.
pub(crate) fn is_true_of(
    alloc: Global,
    walk: &Walk<'_>,
    fault: &Fault,
    last: &Option<(u32, Point)>,
    line: FaultLine<'_>,
) -> Result<bool, NoMemory>
    requires ready { IsReady walk.now }
    requires member { Contains (universe_of walk.now.trial.now.netlist.now) fault.now }
    requires last { LastTransition walk.now.trial.now.netlist.now walk.now.trial.now.patterns.now fault.now last.now }
    ensures { IfOk result (λ yes. MatchBool yes
        (IsTrueOfSlow (slow_test_of walk.now.trial.now) fault.now line.entry.outcome line.entry.pin.now)
        (¬ IsTrueOfSlow (slow_test_of walk.now.trial.now) fault.now line.entry.outcome line.entry.pin.now)) }
{
    match line.outcome {
        Outcome::Detected(place, cycle) => Ok(is_seen_so(walk, last, place, cycle, line.pin)),
        Outcome::Redundant => is_redundant(alloc, walk, fault, last),
        Outcome::Aborted => is_aborted(alloc, walk, fault, last),
        Outcome::Unasked => Ok(false),
    }
}
