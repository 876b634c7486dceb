//! The ends of evidence, where it shows its fault.
ghost use Rattle.std.specs.Prelude.{◌≡◌, IfOk};
ghost use Rattle.std.specs.List.{All, Contains};
ghost use Rattle.netlist.specs.Holds.{AreHoldsOf};
ghost use Rattle.netlist.specs.Lines.{IsLineOf};
ghost use Rattle.statement.specs.Faults.{universe_of};
ghost use Rattle.statement.specs.declared.lines.Fault.{Fault as FaultOf};
ghost use Rattle.evidence.specs.Evidence.{Shows};
ghost use Rattle.certificate.specs.Certificates.{IsEvidence, IsWellFormed};
ghost use Rattle.check_parts.specs.Checkers.{AreShown};
ghost use Rattle.check_parts.specs.Ends.{AreEnds, IsEnds};
ghost use Rattle.check_parts.specs.inner.Lookups.{AreCheckersOf, IsLookup};

use crate::checkers::Checkers;
use crate::firsts::Firsts;
use evidence::Evidence;
use fault_universe::faults_have_lines;
use netlist::{Core, Fault, Holds, NoMemory};
use redundancy_cert::Counts;
use std::alloc::Global;

/// A certificate's evidence under these held inputs, and where each fault's first stands.
#[derive(Clone, Copy)]
pub(crate) struct Lookup<'a> {
    pub core: &'a Core,
    pub holds: &'a Holds,
    pub evidence: &'a [(Fault, Evidence)],
    pub firsts: &'a Firsts,
}

/// The ends of a fault's first evidence, where there is some and it shows the fault.
fn ends_of(
    checkers: &mut Checkers<'_>,
    lookup: &Lookup<'_>,
    fault: &Fault,
) -> Result<Option<Counts>, NoMemory>
    requires lookup { IsLookup lookup.now }
    requires checkers { AreCheckersOf lookup.now checkers.old }
    requires member { Contains (universe_of lookup.now.core.now) fault.now }
    ensures same { checkers.new ≡ checkers.old }
    ensures ends { IfOk result (IsEnds lookup.now.core.now lookup.now.holds.now lookup.now.evidence.now fault.now) }
{
    faults_have_lines();
    let evidence = lookup.evidence;
    let Some(place) = lookup.firsts.get(lookup.core.netlist(), evidence, fault) else {
        return Ok(None);
    };
    checkers.ends(fault, &evidence[place].1)
}

/// Those of each of these faults, in order, by these checkers.
fn ends_by(
    alloc: Global,
    checkers: &mut Checkers<'_>,
    lookup: &Lookup<'_>,
    faults: &[Fault],
) -> Result<Vec<Option<Counts>>, NoMemory>
    requires lookup { IsLookup lookup.now }
    requires checkers { AreCheckersOf lookup.now checkers.old }
    requires members { All (λ (f : FaultOf). Contains (universe_of lookup.now.core.now) f) faults.now }
    ensures { IfOk result (λ v. AreEnds lookup.now.core.now lookup.now.holds.now lookup.now.evidence.now faults.now v.items) }
{
    let mut all = Vec::new(alloc);
    for k in 0..faults.len() {
        let ends = ends_of(checkers, lookup, &faults[k])?;
        all.push(ends)?;
    }
    Ok(all)
}

/// Of each of these faults the ends of its first evidence, where there is some and it shows the fault.
pub fn first_ends(
    alloc: Global,
    core: &Core,
    holds: &Holds,
    evidence: &[(Fault, Evidence)],
    faults: &[Fault],
) -> Result<Vec<Option<Counts>>, NoMemory>
    requires held { AreHoldsOf core.now holds.now }
    requires each { All (IsEvidence core.now) evidence.now }
    requires members { All (λ (f : FaultOf). Contains (universe_of core.now) f) faults.now }
    ensures { IfOk result (λ v. AreEnds core.now holds.now evidence.now faults.now v.items) }
{
    core.netlist().sound();
    let firsts = Firsts::of(alloc, core.netlist(), evidence)?;
    let mut checkers = Checkers::new(alloc, core, holds)?;
    let lookup = Lookup {
        core,
        holds,
        evidence,
        firsts: &firsts,
    };
    let ends = ends_by(alloc, &mut checkers, &lookup, faults);
    drop(checkers);
    ends
}

/// The ends of evidence, where it shows this fault.
pub fn ends_on(
    alloc: Global,
    core: &Core,
    holds: &Holds,
    fault: &Fault,
    evidence: &Evidence,
) -> Result<Option<Counts>, NoMemory>
    requires held { AreHoldsOf core.now holds.now }
    requires line { IsLineOf core.now fault.now.line }
    requires formed { IsWellFormed core.now evidence.now }
    ensures { IfOk result (AreShown (Shows fault.now core.now holds.now evidence.now) evidence.now) }
{
    core.netlist().sound();
    let mut checkers = Checkers::new(alloc, core, holds)?;
    let ends = checkers.ends(fault, evidence);
    drop(checkers);
    ends
}
