//! The evidence of the classes that no pattern detects.
ghost use Rattle.std.specs.Prelude.{◌≡◌, ◌≤◌, ◌++◌, ◌∷◌, [], IfOk, OnOk, length};
ghost use Rattle.run_files.specs.inner.Verdicts.{leaf_at, leaves_of};

use evidence::Evidence;
use list_core::Verdict;
use netlist::{Fault, NoMemory};
use std::alloc::{AllocError, Global};

/// Adds the evidence of a class, where no pattern detects it, beside its representative.
fn add_leaf(
    leaves: &mut Vec<(Fault, Evidence)>,
    representative: Fault,
    verdict: Verdict,
) -> Result<(), AllocError>
    ensures { OnOk result (leaves.new.items ≡ leaves.old.items ++ leaf_at representative verdict) }
{
    match verdict {
        Verdict::Open => Ok(()),
        Verdict::Detected(_, _) => Ok(()),
        Verdict::Redundant(evidence) => push_leaf(leaves, representative, evidence),
        Verdict::Aborted(tree) => push_leaf(leaves, representative, Evidence::Tree(tree)),
    }
}

fn push_leaf(
    leaves: &mut Vec<(Fault, Evidence)>,
    representative: Fault,
    evidence: Evidence,
) -> Result<(), AllocError>
    ensures { OnOk result (leaves.new.items ≡ leaves.old.items ++ (representative, evidence) ∷ []) }
{
    leaves.push((representative, evidence))?;
    Ok(())
}

fn leaves_within(
    alloc: Global,
    representatives: &[Fault],
    verdicts: Vec<Verdict>,
) -> Result<Vec<(Fault, Evidence)>, AllocError>
    requires { length verdicts.items ≤ length representatives.now }
    ensures { IfOk result (λ v. v.items ≡ leaves_of representatives.now verdicts.items) }
{
    let mut leaves = Vec::new(alloc);
    let mut class = 0usize;
    for verdict in verdicts {
        add_leaf(&mut leaves, representatives[class], verdict)?;
        class += 1;
    }
    Ok(leaves)
}

/// Each beside its class's representative, in the order of classes.
pub(crate) fn leaves_of(
    alloc: Global,
    representatives: &[Fault],
    verdicts: Vec<Verdict>,
) -> Result<Vec<(Fault, Evidence)>, NoMemory>
    requires { length verdicts.items ≤ length representatives.now }
    ensures { IfOk result (λ v. v.items ≡ leaves_of representatives.now verdicts.items) }
{
    leaves_within(alloc, representatives, verdicts).map_err(|_| NoMemory)
}
