//! What a certificate's evidence shows of a slow line, on the two frames in which it alone is slow.
ghost use Rattle.std.specs.Prelude.{◌≡◌, IfOk};
ghost use Rattle.std.specs.List.{Contains};
ghost use Rattle.netlist.specs.Lines.{IsLineOf};
ghost use Rattle.statement.specs.Faults.{universe_of};
ghost use Rattle.certificate.specs.Certificates.{IsWellFormed};
ghost use Rattle.transition_frames.specs.Frames.{frames_of};
ghost use Rattle.transition_sim.specs.Shown.{ShowsFrames};
ghost use Rattle.check_parts.specs.Checkers.{AreShown};
ghost use Rattle.check_parts.specs.Ends.{AreFirstEnds};
ghost use Rattle.slow_check.specs.inner.Walking.{IsReady};

use crate::walking::Walk;
use check_parts::ends_on;
use evidence::Evidence;
use fault_universe::faults_have_lines;
use netlist::{Core, Fault, NoMemory};
use redundancy_cert::Counts;
use std::alloc::Global;
use transition_frames::frames_named;

/// The ends of evidence, where it shows a slow line on its two frames, whose inputs are those of the netlist.
fn ends_of(
    alloc: Global,
    walk: &Walk<'_>,
    fault: Fault,
    evidence: &Evidence,
) -> Result<Option<Counts>, NoMemory>
    requires ready { IsReady walk.now }
    requires line { IsLineOf walk.now.trial.now.netlist.now fault.line }
    requires formed { IsWellFormed (frames_of walk.now.trial.now.netlist.now fault) evidence.now }
    ensures { IfOk result (AreShown (ShowsFrames walk.now.trial.now.netlist.now walk.now.trial.now.holds.now fault evidence.now) evidence.now) }
{
    let trial = walk.trial;
    let (two, slow) = frames_named(alloc, trial.netlist, walk.names, fault)?;
    let Ok(core) = Core::of(alloc, two) else {
        return Err(NoMemory);
    };
    core.netlist().sound();
    let ends = ends_on(alloc, &core, trial.holds, &slow, evidence);
    drop(core);
    ends
}

/// The ends of a slow line's first evidence, where there is some and it shows the line.
pub(crate) fn first_ends(
    alloc: Global,
    walk: &Walk<'_>,
    fault: &Fault,
) -> Result<Option<Counts>, NoMemory>
    requires ready { IsReady walk.now }
    requires member { Contains (universe_of walk.now.trial.now.netlist.now) fault.now }
    ensures { IfOk result (AreFirstEnds (ShowsFrames walk.now.trial.now.netlist.now walk.now.trial.now.holds.now fault.now) walk.now.trial.now.evidence.now fault.now) }
{
    faults_have_lines();
    let trial = walk.trial;
    let evidence = trial.evidence;
    let Some(place) = walk.firsts.get(trial.netlist, evidence, fault) else {
        return Ok(None);
    };
    ends_of(alloc, walk, *fault, &evidence[place].1)
}
