//! What the caller works once the workers have ended.
ghost use Rattle.std.specs.Prelude.{[], ◌∷◌, ◌≡◌, ◌+◌, ◌<◌, ◌≤◌, ◌^◌, length, IsTrue, IfOk, OnOk};
ghost use Rattle.std.specs.Option.{option_copied};
ghost use Rattle.redundancy_cert.specs.TestCubes.{IsTestCube};
ghost use Rattle.evidence.specs.Answers.{HasEvidence, MayAnswer};
ghost use Rattle.list_core.specs.Subjects.{class_count};
ghost use Rattle.list_core.specs.Batches.{IsTrueBatch};
ghost use Rattle.list_core.specs.States.{IsTrueList, MaySettle};
ghost use Rattle.worker.specs.Working.{IsDone, NoneOpen};
ghost use Rattle.worker.specs.inner.Closing.{IsClosed};

use crate::adding::alone;
use crate::errands::Brief;
use crate::outcomes::{Outcome, outcome_of};
use cubes::{Cube, fill};
use evidence::{Engine, Evidence, Found};
use list_core::{About, Claim, FaultList, Goal};
use netlist::{NoMemory, Point};
use outside::Gate;
use rand_pcg::Lcg64Xsh32;
use std::alloc::Global;
use word_sim::{Batch, Hit};

/// The cube, filled, with its hit of the claim's class.
fn single<J: About>(
    alloc: Global,
    claim: &Claim<J>,
    cube: &Cube,
    point: Point,
    rng: &mut Lcg64Xsh32,
) -> Result<Batch, NoMemory>
    requires { IsTestCube claim.now.fault J.subject.netlist J.subject.holds cube.now point }
    ensures true_batch { IfOk result (IsTrueBatch J.subject) }
    ensures one { IfOk result (λ b. length b.patterns ≡ 1) }
    ensures hits { IfOk result (λ b. b.hits ≡ record { class = claim.now.class; pattern = 0; point = point } ∷ []) }
{
    let pattern = fill(alloc, cube, rng)?;
    let patterns = alone(alloc, pattern)?;
    let hits = alone(
        alloc,
        Hit {
            class: claim.class(),
            pattern: 0,
            point,
        },
    )?;
    Ok(Batch::new(patterns, hits))
}

/// Publishes the cube, filled, with its hit of the claim's class.
#[tactic(auto, using(crate::proofs::ClosingLemmas::single_closes))]
fn publish_single<J: About>(
    alloc: Global,
    list: &mut FaultList<J>,
    worker: u32,
    claim: &Claim<J>,
    cube: &Cube,
    point: Point,
    rng: &mut Lcg64Xsh32,
) -> Result<(), NoMemory>
    requires test { IsTestCube claim.now.fault J.subject.netlist J.subject.holds cube.now point }
    requires few { length list.old.patterns + 1 < 2 ^ 32 }
    ensures { OnOk result (IsClosed claim.now.class 0 list.old list.new) }
{
    list.true_list();
    let batch = single(alloc, claim, cube, point, rng)?;
    list.reserve(1, 2)?;
    list.publish(worker, batch);
    Ok(())
}

/// Hands the claim back with its evidence.
#[tactic(auto, using(crate::proofs::ClosingLemmas::settling_closes))]
fn settle_one<J: About>(list: &mut FaultList<J>, claim: Claim<J>, evidence: Evidence)
    requires { MaySettle J.subject claim.fault evidence }
    ensures { IsClosed claim.class 0 list.old list.new }
{
    list.true_list();
    let _ = list.settle(claim, evidence);
}

/// Publishes a test, or settles the claim.
fn close<J: About>(
    alloc: Global,
    list: &mut FaultList<J>,
    worker: u32,
    claim: Claim<J>,
    found: Found,
    rng: &mut Lcg64Xsh32,
) -> Result<(), NoMemory>
    requires evidence { HasEvidence claim.fault J.subject.netlist J.subject.holds J.subject.limit found }
    requires kind { MayAnswer J.subject.refutes found }
    requires few { length list.old.patterns + 1 < 2 ^ 32 }
    ensures { OnOk result (IsClosed claim.class 0 list.old list.new) }
{
    match outcome_of(&claim, found) {
        Outcome::Test(cube, point) => {
            publish_single(alloc, list, worker, &claim, &cube, point, rng)
        }
        Outcome::Settles(evidence, _) => {
            settle_one(list, claim, evidence);
            Ok(())
        }
    }
}

/// What a search for a claim answers.
#[tactic(auto, using(crate::proofs::WorkLemmas::line_there, crate::proofs::WorkLemmas::evidence_there, crate::proofs::WorkLemmas::kind_there))]
fn found_for<J: About, E: Engine, G: Gate, R>(
    brief: &Brief<'_, J, E, G, R>,
    claim: &Claim<J>,
) -> Result<Found, NoMemory>
    ensures evidence { IfOk result (HasEvidence claim.now.fault J.subject.netlist J.subject.holds J.subject.limit) }
    ensures kind { IfOk result (MayAnswer J.subject.refutes) }
{
    brief.engine.search(
        brief.alloc,
        brief.core,
        claim.fault(),
        claim.limit(),
        brief.holds,
    )
}

/// Works the class, where it is Open.
#[tactic(auto, using(crate::proofs::ClosingLemmas::claimed_closes, crate::proofs::ClosingLemmas::none_to_claim))]
fn work_one<J: About, E: Engine, G: Gate, R>(
    brief: &Brief<'_, J, E, G, R>,
    list: &mut FaultList<J>,
    worker: u32,
    class: u32,
    rng: &mut Lcg64Xsh32,
) -> Result<(), NoMemory>
    requires class { class < class_count J.subject }
    requires claims { list.old.claims < class_count J.subject }
    requires few { length list.old.patterns + 1 < 2 ^ 32 }
    ensures { OnOk result (IsClosed class 1 list.old list.new) }
{
    let Some(claim) = list.claim(worker, class) else {
        return Ok(());
    };
    let found = found_for(brief, &claim)?;
    close(brief.alloc, list, worker, claim, found, rng)
}

/// Works every class that is still Open.
#[tactic(auto, using(crate::proofs::ClosingLemmas::none_open_yet))]
fn work_all<J: About, E: Engine, G: Gate, R>(
    brief: &Brief<'_, J, E, G, R>,
    list: FaultList<J>,
    worker: u32,
    seed: u64,
) -> Result<FaultList<J>, NoMemory>
    requires claims { list.claims ≡ 0 }
    requires few { length list.patterns ≤ class_count J.subject }
    ensures closed { IfOk result (λ l. NoneOpen l.verdicts) }
    ensures true_list { IfOk result (λ l. IsTrueList J.subject l) }
    ensures few { IfOk result (λ l. length l.patterns ≤ class_count J.subject + class_count J.subject) }
{
    let mut list = list;
    let mut rng = Lcg64Xsh32::new(seed, worker as u64);
    list.true_list();
    for class in 0..list.count() {
        work_one(brief, &mut list, worker, class, &mut rng)?;
    }
    list.true_list();
    Ok(list)
}

/// Whether there is a goal, and enough is detected.
fn is_enough<J: About>(list: &FaultList<J>, goal: Option<&Goal>) -> bool
    ensures { IsTrue result → IsDone (option_copied goal.entry) list.now.verdicts }
{
    match goal {
        Some(goal) => list.is_enough(goal),
        None => false,
    }
}

/// Works every class that is still Open, unless enough is detected.
#[tactic(auto, using(crate::proofs::WorkLemmas::done_with_none))]
pub(crate) fn work_rest<J: About, E: Engine, G: Gate, R>(
    brief: &Brief<'_, J, E, G, R>,
    list: FaultList<J>,
    worker: u32,
    seed: u64,
) -> Result<FaultList<J>, NoMemory>
    requires claims { list.claims ≡ 0 }
    requires few { length list.patterns ≤ class_count J.subject }
    ensures closed { IfOk result (λ l. IsDone brief.now l.verdicts) }
    ensures true_list { IfOk result (λ l. IsTrueList J.subject l) }
    ensures few { IfOk result (λ l. length l.patterns ≤ class_count J.subject + class_count J.subject) }
{
    if is_enough(&list, brief.goal) {
        list.true_list();
        return Ok(list);
    }
    work_all(brief, list, worker, seed)
}
