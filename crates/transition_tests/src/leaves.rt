//! The evidence of the transition faults that no pattern detects.
ghost use Rattle.std.specs.Prelude.{◌≡◌, ◌≤◌, ◌^◌, ◌<◌, ◌++◌, ◌∷◌, [], IfOk, OnOk, length};
ghost use Rattle.transition_tests.specs.Lines.{leaf_at, leaves_of};

use crate::verdicts::TransitionVerdict;
use evidence::Evidence;
use fault_universe::FaultSet;
use netlist::{Fault, NoMemory};
use std::alloc::{AllocError, Global};

fn push_leaf(
    leaves: &mut Vec<(Fault, Evidence)>,
    fault: Fault,
    evidence: Evidence,
) -> Result<(), AllocError>
    ensures { OnOk result (leaves.new.items ≡ leaves.old.items ++ (fault, evidence) ∷ []) }
{
    leaves.push((fault, evidence))?;
    Ok(())
}

/// Adds the evidence of a fault, where no pattern detects it.
fn add_leaf(
    leaves: &mut Vec<(Fault, Evidence)>,
    fault: Fault,
    verdict: TransitionVerdict,
) -> Result<(), AllocError>
    ensures { OnOk result (leaves.new.items ≡ leaves.old.items ++ leaf_at fault verdict) }
{
    match verdict {
        TransitionVerdict::Detected(_, _) => Ok(()),
        TransitionVerdict::Redundant(evidence) => push_leaf(leaves, fault, evidence),
        TransitionVerdict::Aborted(tree) => push_leaf(leaves, fault, Evidence::Tree(tree)),
    }
}

/// Such evidence, each beside its fault, in the order of faults.
pub fn leaves_of(
    alloc: Global,
    faults: &FaultSet,
    verdicts: Vec<TransitionVerdict>,
) -> Result<Vec<(Fault, Evidence)>, NoMemory>
    requires size { length verdicts.items ≤ length faults.now }
    requires few { length faults.now < 2 ^ 32 }
    ensures { IfOk result (λ v. v.items ≡ leaves_of faults.now verdicts.items) }
{
    let mut leaves = Vec::new(alloc);
    let mut place = 0u32;
    for verdict in verdicts {
        add_leaf(&mut leaves, faults.fault(place), verdict)?;
        place += 1;
    }
    Ok(leaves)
}
