//! What becomes of what a search found.
ghost use Rattle.evidence.specs.Answers.{HasEvidence, MayAnswer};
ghost use Rattle.worker.specs.inner.Outcomes.{IsOutcome};

use cubes::Cube;
use evidence::{Evidence, Found};
use list_core::{About, Claim};
use netlist::Point;
use outside::Stage;

/// A test, or evidence and the stage that is passed once it settles the claim.
#[derive(Drop)]
pub(crate) enum Outcome {
    Test(Cube, Point),
    Settles(Evidence, Stage),
}

/// What becomes of what a search for a claim found.
#[tactic(auto, using(crate::proofs::WorkLemmas::closed_settles, crate::proofs::WorkLemmas::refuted_settles, crate::proofs::WorkLemmas::partial_settles))]
pub(crate) fn outcome_of<J: About>(claim: &Claim<J>, found: Found) -> Outcome
    requires evidence { HasEvidence claim.now.fault J.subject.netlist J.subject.holds J.subject.limit found }
    requires kind { MayAnswer J.subject.refutes found }
    ensures { IsOutcome J.subject claim.now.fault result }
{
    match found {
        Found::Test(cube, point) => Outcome::Test(cube, point),
        Found::Closed(tree) => Outcome::Settles(Evidence::Tree(tree), Stage::Redundant),
        Found::Refuted(steps) => Outcome::Settles(Evidence::Refutation(steps), Stage::Redundant),
        Found::Partial(tree) => Outcome::Settles(Evidence::Tree(tree), Stage::Aborted),
    }
}
