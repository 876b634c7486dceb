//! What patterns and evidence show of all slow lines.
ghost use Rattle.std.specs.Prelude.{◌≡◌, IfOk};
ghost use Rattle.slow_check.specs.inner.Trials.{IsSlowTrial, slow_test_of};
ghost use Rattle.slow_check.specs.inner.Walking.{AreFindings};

use crate::trials::SlowTrial;
use check_parts::Firsts;
use fault_universe::{FaultSet, faults_have_lines, few_faults, universe};
use netlist::{Core, NoMemory, Point};
use std::alloc::Global;
use transition_sim::last_tells2;

/// The slow lines, where each is last detected, and where its first evidence stands.
#[derive(Drop)]
pub(crate) struct Findings {
    pub faults: FaultSet,
    pub lasts: Vec<Option<(u32, Point)>>,
    pub firsts: Firsts,
}

/// The patterns are simulated in two frames. The evidence is looked up, and checked once its slow line comes.
pub(crate) fn findings_of(
    alloc: Global,
    core: &Core,
    trial: &SlowTrial<'_>,
) -> Result<Findings, NoMemory>
    requires trial { IsSlowTrial trial.now }
    requires own { core.now ≡ trial.now.netlist.now }
    ensures { IfOk result (AreFindings (slow_test_of trial.now)) }
{
    faults_have_lines();
    few_faults();
    let faults = universe(alloc, trial.netlist)?;
    let lasts = last_tells2(alloc, core, &faults, trial.patterns)?;
    let firsts = Firsts::of(alloc, trial.netlist, trial.evidence)?;
    Ok(Findings {
        faults,
        lasts,
        firsts,
    })
}
